// Words that are looked for in a text.
ghost use Rattle.std.specs.Prelude.{◌≡◌, bytes_eq, codes, ◌||◌};
ghost use Rattle.talc_faults.specs.Words.{opens, owns};

// Whether it is this word.
pub(crate) fn is(word: &[u8], other: &[u8]) -> bool
    ensures { result ≡ bytes_eq word.now other.now }
{
    word == other
}

// What an `in` closes.
pub(crate) fn opens(word: &[u8]) -> bool
    ensures { result ≡ opens word.now }
{
    match word {
        b"let" => true,
        b"open" => true,
        _ => false,
    }
}

// What a bracket behind it belongs to.
pub(crate) fn owns(word: &[u8]) -> bool
    ensures { result ≡ owns word.now }
{
    match word {
        b"if0" => true,
        b"pack" => true,
        b"open" => true,
        _ => false,
    }
}
