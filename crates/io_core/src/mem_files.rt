// Files in memory, with calls that fail where a list says so.
ghost use Rattle.std.specs.Prelude.{◌≡◌, [], map, OnOk, OnErr};
ghost use Rattle.std.specs.Option.{option_copied};
ghost use Rattle.std.specs.FinMap.{get, insert};
ghost use Rattle.io_core.specs.Outside.{IsRead, IsWrite};
ghost use Rattle.io_core.specs.MemFiles.{file_map, files_state, fresh_files, noted_call, MemReads, MemWrites};

use crate::calls::{MadeCall, note_read, note_write};
use crate::failing::{failing_at, first_bytes};
use crate::outside::{Files, Stop};
use std::alloc::{AllocError, Global};
use std::collections::BTreeMap;
use std::marker::Model;

/// Files in memory (own choice). Each call that does not answer `Memory` has a number, whatever its kind, from 0 up to
/// `u64::MAX`, where it stays. A call fails by the first pair of the list that begins with its number, and is counted;
/// a failing write leaves the first bytes of what it was to write: the pair says how many, and a shorter content is
/// left whole. The calls that have a number are kept, with what they were given.
#[derive(Drop)]
pub struct MemFiles {
    files: BTreeMap<String, Vec<u8>>,
    failing: Vec<(u64, u64)>,
    next: u64,
    reads: u64,
    writes: u64,
    calls: Vec<MadeCall>,
}

impl Model for MemFiles {
    ghost use Rattle.std.specs.Prelude.{map};
    ghost use Rattle.io_core.specs.MemFiles.{MemFilesState, mem_files_code, file_map, noted_call};

    ghost Value = { MemFilesState };

    ghost coded = { mem_files_code };

    ghost view = { λ m. record {
      files = file_map m.files;
      failing = m.failing.items;
      next = m.next;
      reads = m.reads;
      writes = m.writes;
      calls = map noted_call m.calls.items;
    } };
}

// The content of a name.
fn content<'a>(files: &'a BTreeMap<String, Vec<u8>>, name: &str) -> Option<&'a [u8]>
    ensures { option_copied result ≡ get (file_map files.now) name.now }
{
    match files.get(name) {
        Some(content) => Some(content.as_slice()),
        None => None,
    }
}

// Sets a name to these bytes; where memory is wanting, the files are as before.
fn set_file(
    alloc: Global,
    files: &mut BTreeMap<String, Vec<u8>>,
    name: &str,
    bytes: &[u8],
) -> Result<(), AllocError>
    ensures ok { OnOk result (file_map files.new ≡ insert (file_map files.old) name.now bytes.now) }
    ensures err { OnErr result (file_map files.new ≡ file_map files.old) }
{
    let key = String::from_str(alloc, name)?;
    let content = Vec::from_slice(alloc, bytes)?;
    files.insert(key, content)?;
    Ok(())
}

impl MemFiles {
    /// Files with these contents. `failing` has the numbers of the calls that fail, each with the number of bytes
    /// that a write leaves then.
    pub fn new(files: BTreeMap<String, Vec<u8>>, failing: Vec<(u64, u64)>) -> MemFiles
        ensures { result ≡ fresh_files (file_map files) failing.items }
    {
        let calls = Vec::new(*failing.allocator());
        MemFiles {
            files,
            failing,
            next: 0,
            reads: 0,
            writes: 0,
            calls,
        }
    }

    /// The names and their contents as they stand.
    pub fn files(&self) -> &BTreeMap<String, Vec<u8>>
        ensures { file_map result.now ≡ self.now.files }
    {
        &self.files
    }

    /// How many reads, and how many writes, have failed by the list.
    pub fn faults(&self) -> (u64, u64)
        ensures { result ≡ (self.now.reads, self.now.writes) }
    {
        (self.reads, self.writes)
    }

    /// The calls that have a number, the first one first.
    pub fn calls(&self) -> &[MadeCall]
        ensures { map noted_call result.now ≡ self.now.calls }
    {
        &self.calls
    }
}

impl Files for MemFiles {
    ghost state = { files_state };

    fn read_all(&mut self, alloc: Global, name: &str) -> Result<Vec<u8>, Stop>
        ensures read { IsRead (files_state self.old) (files_state self.new) name.now result }
        ensures rules { MemReads self.old self.new name.now result }
    {
        if failing_at(&self.failing, self.next).is_some() {
            note_read(alloc, &mut self.calls, name)?;
            self.next = self.next.saturating_add(1);
            self.reads = self.reads.saturating_add(1);
            return Err(Stop::Failed);
        }
        let Some(content) = content(&self.files, name) else {
            note_read(alloc, &mut self.calls, name)?;
            self.next = self.next.saturating_add(1);
            return Err(Stop::Failed);
        };
        let copy = Vec::from_slice(alloc, content)?;
        note_read(alloc, &mut self.calls, name)?;
        self.next = self.next.saturating_add(1);
        Ok(copy)
    }

    fn write_all(&mut self, alloc: Global, name: &str, bytes: &[u8]) -> Result<(), Stop>
        ensures written { IsWrite (files_state self.old) (files_state self.new) name.now bytes.now result }
        ensures rules { MemWrites self.old self.new name.now bytes.now result }
    {
        note_write(alloc, &mut self.calls, name, bytes)?;
        let failing = failing_at(&self.failing, self.next);
        let kept = match failing {
            Some(most) => first_bytes(bytes, most),
            None => bytes,
        };
        if set_file(alloc, &mut self.files, name, kept).is_err() {
            self.calls.pop();
            return Err(Stop::Memory);
        }
        self.next = self.next.saturating_add(1);
        match failing {
            Some(_) => {
                self.writes = self.writes.saturating_add(1);
                Err(Stop::Failed)
            }
            None => Ok(()),
        }
    }
}
