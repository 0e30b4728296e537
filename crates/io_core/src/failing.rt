// Lists of calls that fail, each with the number of bytes that the failing call takes.
ghost use Rattle.std.specs.Prelude.{◌≡◌, take};
ghost use Rattle.io_core.specs.Failing.{failing_at};

// How many bytes the failing call with this number takes, or None where it does not fail.
pub(crate) fn failing_at(failing: &[(u64, u64)], call: u64) -> Option<u64>
    ensures { result ≡ failing_at failing.now call }
{
    for pair in failing {
        if pair.0 == call {
            return Some(pair.1);
        }
    }
    None
}

// The first bytes, as many as `most`, or all where there are fewer.
pub(crate) fn first_bytes(bytes: &[u8], most: u64) -> &[u8]
    ensures { result.now ≡ take most bytes.now }
{
    if most < bytes.len() as u64 {
        &bytes[..most as usize]
    } else {
        bytes
    }
}
