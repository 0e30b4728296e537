// What stands at a place of a text.
ghost use Rattle.std.specs.Prelude.{◌≡◌, drop};
ghost use Rattle.talc_faults.specs.Around.{bytes_at};

// The bytes from start up to end, as far as the text goes.
pub(crate) fn bytes_at(text: &[u8], start: u64, end: u64) -> &[u8]
    ensures { result.now ≡ bytes_at text.now start end }
{
    let from = text.len().min(start as usize);
    let rest = &text[from..];
    let size = rest.len().min(end.saturating_sub(start) as usize);
    &rest[..size]
}

// The bytes from a place on.
pub(crate) fn bytes_from(text: &[u8], start: u64) -> &[u8]
    ensures { result.now ≡ drop start text.now }
{
    let from = text.len().min(start as usize);
    &text[from..]
}
