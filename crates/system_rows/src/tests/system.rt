// Files of the disk and a stream of the system.
use io_core::{DiskFiles, Files, OutSink, Sink, Stop};
use std::alloc::Global;
use std::fs;
use std::fs::File;
use std::test::Fail;

const NAME: &str = "system_rows_disk_files_test";

const LINES: &str = "system_rows_out_sink_test";

fn is_content(read: Result<Vec<u8>, Stop>, content: &[u8]) -> bool {
    match read {
        Ok(bytes) => bytes.as_slice() == content,
        Err(_) => false,
    }
}

fn is_failed(read: Result<Vec<u8>, Stop>) -> bool {
    match read {
        Ok(_) => false,
        Err(stop) => stop == Stop::Failed,
    }
}

// Whether what is written over a longer content is read back whole.
fn comes_back(alloc: Global, files: &mut impl Files, content: &[u8]) -> bool {
    let Some(shorter) = content.get(1..) else {
        return false;
    };
    files.write_all(alloc, NAME, content) == Ok(())
        && files.write_all(alloc, NAME, shorter) == Ok(())
        && is_content(files.read_all(alloc, NAME), shorter)
}

// Whether an absent name cannot be read, and a full device not be written.
fn fails(alloc: Global, files: &mut impl Files) -> bool {
    is_failed(files.read_all(alloc, NAME))
        && files.write_all(alloc, "/dev/full", b"7") == Err(Stop::Failed)
}

#[test]
fn a_written_file_is_read_back_whole(rt: HostRuntime) -> Result<(), Fail> {
    let alloc = rt.alloc();
    let mut files = DiskFiles::new(&rt);
    let content = vec![in alloc; 7u8; 10000]?;
    assert!(rt; comes_back(alloc, &mut files, &content));
    fs::remove_file(&rt, NAME)?;
    assert!(rt; files.faults() == (0, 0));
    assert!(rt; fails(alloc, &mut files));
    assert!(rt; files.faults() == (1, 1));
    Ok(())
}

// Whether two lines are taken, and no fault is counted.
fn takes_two_lines(alloc: Global, file: File) -> bool {
    let mut sink = OutSink::new(file);
    sink.put(alloc, b"int 4\n") == Ok(())
        && sink.put(alloc, b"int 5\n") == Ok(())
        && sink.faults() == 0
}

// Whether a line is not taken, and that is counted.
fn counts_a_fault(alloc: Global, file: File) -> bool {
    let mut full = OutSink::new(file);
    full.put(alloc, b"int 4\n") == Err(Stop::Failed) && full.faults() == 1
}

#[test]
fn a_stream_takes_each_piece_or_counts_a_fault(rt: HostRuntime) -> Result<(), Fail> {
    assert!(rt; takes_two_lines(rt.alloc(), File::create(&rt, LINES)?));
    let written = fs::read(&rt, LINES)?;
    assert!(rt; written.as_slice() == b"int 4\nint 5\n".as_slice());
    fs::remove_file(&rt, LINES)?;
    assert!(rt; counts_a_fault(rt.alloc(), File::create(&rt, "/dev/full")?));
    Ok(())
}
