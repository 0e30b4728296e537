// The calls that were made of files in memory.
ghost use Rattle.std.specs.Prelude.{◌≡◌, OnOk, OnErr, ◌++◌, ◌∷◌, [], map};
ghost use Rattle.io_core.specs.Outside.{Reading, Writing};
ghost use Rattle.io_core.specs.MemFiles.{noted_call};

use std::alloc::{AllocError, Global};

/// A call that was made of files in memory (own choice), whether it failed or not.
#[derive(Debug, PartialEq, Eq, Drop)]
pub enum MadeCall {
    /// The whole content of a name was asked for.
    Read { name: String },
    /// A name was to be set to these bytes.
    Write { name: String, bytes: Vec<u8> },
}

// Notes that a name was read; where memory is wanting, the calls are as before.
pub(crate) fn note_read(
    alloc: Global,
    calls: &mut Vec<MadeCall>,
    name: &str,
) -> Result<(), AllocError>
    ensures ok { OnOk result (map noted_call calls.new.items
        ≡ map noted_call calls.old.items ++ (Reading name.now ∷ [])) }
    ensures err { OnErr result (calls.new.items ≡ calls.old.items) }
{
    let name = String::from_str(alloc, name)?;
    calls.push(MadeCall::Read { name })?;
    Ok(())
}

// Notes that a name was to be set to these bytes; where memory is wanting, the calls are as before.
pub(crate) fn note_write(
    alloc: Global,
    calls: &mut Vec<MadeCall>,
    name: &str,
    bytes: &[u8],
) -> Result<(), AllocError>
    ensures ok { OnOk result (map noted_call calls.new.items
        ≡ map noted_call calls.old.items ++ (Writing name.now bytes.now ∷ [])) }
    ensures err { OnErr result (calls.new.items ≡ calls.old.items) }
{
    let name = String::from_str(alloc, name)?;
    let bytes = Vec::from_slice(alloc, bytes)?;
    calls.push(MadeCall::Write { name, bytes })?;
    Ok(())
}
