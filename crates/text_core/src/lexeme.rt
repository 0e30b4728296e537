// What stands at a place of a text, by its first bytes alone.
ghost use Rattle.std.specs.Prelude.{◌≡◌, ◌+◌, ◌-◌, ◌≤◌, ◌<◌, length, take, drop};
ghost use Rattle.std.specs.List.{prefix_len};
ghost use Rattle.text_core.specs.Byte as byte;
ghost use Rattle.text_core.specs.Lexeme.{IsLexeme, IsValue, at_dashes, at_negative};

/// The largest value that the digits of a token may have in any of the two languages, 2 to the power of 63.
const LARGEST: u64 = 9223372036854775808;

/// Decimal digits: their value, whether it is at most 2 to the power of 63, and the place after the last.
/// Where it is more, `value` says nothing.
#[derive(Clone, Copy, Debug)]
pub struct Digits {
    pub value: u64,
    pub fits: bool,
    pub end: usize,
}

/// What stands at a place of a text, with the place after it (own choice).
#[derive(Clone, Copy, Debug)]
pub enum Lexeme {
    /// White space, or a comment.
    Blank(usize),
    /// A letter with the letters, digits and underscores after it.
    Word(usize),
    /// Digits.
    Plain(Digits),
    /// `~` with digits after it.
    Negative(Digits),
    /// Any other byte: a sign of the language, or nothing.
    Other,
}

/// What a language finds at a place of a text, with the place after it.
#[derive(Debug, Drop)]
pub enum Found<K> {
    /// A gap between tokens.
    Skip(usize),
    /// A token of this kind.
    Read(K, usize),
    /// A token whose value is out of range.
    Large(usize),
    /// A byte that begins no token.
    Bad,
}

/// Whether a byte is a space, a tab, a line feed or a carriage return.
#[inline(always)]
pub fn is_space(b: u8) -> bool
    ensures { result ≡ byte.space b }
{
    b == b' ' || b == b'\t' || b == b'\n' || b == b'\r'
}

/// Whether a byte is a decimal digit.
#[inline(always)]
pub fn is_digit(b: u8) -> bool
    ensures { result ≡ byte.digit b }
{
    b > 47 && b < 58
}

/// Whether a byte is an ASCII letter.
#[inline(always)]
pub fn is_letter(b: u8) -> bool
    ensures { result ≡ byte.letter b }
{
    b > 64 && b < 91 || b > 96 && b < 123
}

/// Whether a byte may stand in a word: a letter, a digit or an underscore.
#[inline(always)]
pub fn is_of_word(b: u8) -> bool
    ensures { result ≡ byte.of_word b }
{
    is_letter(b) || is_digit(b) || b == b'_'
}

/// The place of the next line feed, or the end of the text.
pub fn line_end(text: &[u8], at: usize) -> usize
    requires { at ≤ length text.now }
    ensures { result ≡ at + prefix_len byte.of_line (drop at text.now) }
{
    let mut i = at;
    while i < text.len() && text[i] != b'\n' {
        i += 1;
    }
    i
}

/// The place after the letters, digits and underscores that stand from `at` on.
#[inline(always)]
pub fn word_end(text: &[u8], at: usize) -> usize
    requires { at ≤ length text.now }
    ensures { result ≡ at + prefix_len byte.of_word (drop at text.now) }
{
    let mut i = at;
    while i < text.len() && is_of_word(text[i]) {
        i += 1;
    }
    i
}

/// The digits that stand from `at` on.
pub fn read_digits(text: &[u8], at: usize) -> Digits
    requires { at ≤ length text.now }
    ensures end { result.end ≡ at + prefix_len byte.digit (drop at text.now) }
    ensures is_value { IsValue result.value result.fits (take (prefix_len byte.digit (drop at text.now))
        (drop at text.now)) }
{
    let mut value = 0u64;
    let mut fits = true;
    let mut i = at;
    while i < text.len() && is_digit(text[i]) {
        let d = (text[i] - 48) as u64;
        if fits && value <= (LARGEST - d) / 10 {
            value = value * 10 + d;
        } else {
            fits = false;
        }
        i += 1;
    }
    Digits {
        value,
        fits,
        end: i,
    }
}

fn is_comment(text: &[u8], at: usize) -> bool
    requires { at < length text.now }
    ensures { result ≡ at_dashes (drop at text.now) }
{
    text[at] == b'-' && at + 1 < text.len() && text[at + 1] == b'-'
}

fn is_negative(text: &[u8], at: usize) -> bool
    requires { at < length text.now }
    ensures { result ≡ at_negative (drop at text.now) }
{
    text[at] == b'~' && at + 1 < text.len() && is_digit(text[at + 1])
}

/// What stands at a place before the end of a text.
#[inline(always)]
pub fn next_lexeme(text: &[u8], at: usize) -> Lexeme
    requires { at < length text.now }
    ensures { IsLexeme text.now at result }
{
    let b = text[at];
    if is_space(b) {
        return Lexeme::Blank(at + 1);
    }
    if is_comment(text, at) {
        return Lexeme::Blank(line_end(text, at + 2));
    }
    if is_letter(b) {
        return Lexeme::Word(word_end(text, at + 1));
    }
    if is_digit(b) {
        return Lexeme::Plain(read_digits(text, at));
    }
    if is_negative(text, at) {
        return Lexeme::Negative(read_digits(text, at + 1));
    }
    Lexeme::Other
}
