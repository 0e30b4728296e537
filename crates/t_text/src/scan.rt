// What stands at a place of an assembly text.
ghost use Rattle.std.specs.Prelude.{◌≡◌, ◌≤◌, ◌<◌, ◌^◌, true, false, None};
ghost use Rattle.std.specs.Prelude.{[], ◌∷◌, length, drop, get_or};
ghost use Rattle.text_core.specs.Tokens.{look};
ghost use Rattle.text_core.specs.Lexeme.{IsFound};
ghost use Rattle.t_text.specs.Tokens.{assembly, words, word_in, signs, is_register};
ghost use Rattle.t_text.specs.Kept.{kind_of, of_tag};
ghost use Rattle.t_text.specs.Scan.{plain_found, negative_found, register_found, word_at, IsRegisterAt};
ghost use Rattle.t_text.specs.Scan.{goes_on, words_of_a, words_of_bcd, words_of_hij, words_of_lp};
ghost use Rattle.t_text.specs.Scan.{words_of_m, words_of_s, words_of_tu, IsShort};

use crate::digits::digits_at;
use crate::tagged::{Tag, Tagged};
use text_core::{
    Digits, Found, Lexeme, is_digit, is_letter, is_of_word, is_space, next_lexeme, word_end,
};

// this reserved word, or a name
fn word_or_name(bytes: &[u8], reserved: &[u8], tag: Tag) -> Tag
    ensures { kind_of result 0 ≡ word_in ((reserved.now, kind_of tag 0) ∷ []) bytes.now }
{
    if bytes == reserved { tag } else { Tag::Name }
}

// a reserved word that begins with `a`, or a name
fn word_of_a(bytes: &[u8]) -> Tag
    ensures { kind_of result 0 ≡ word_in words_of_a bytes.now }
{
    match bytes {
        b"all" => Tag::All,
        b"as" => Tag::As,
        b"add" => Tag::Add,
        _ => Tag::Name,
    }
}

// the same with `b`, `c` or `d`
fn word_of_bcd(bytes: &[u8]) -> Tag
    ensures { kind_of result 0 ≡ word_in words_of_bcd bytes.now }
{
    match bytes {
        b"bnz" => Tag::Bnz,
        b"code" => Tag::Code,
        b"data" => Tag::Data,
        _ => Tag::Name,
    }
}

// the same with `h`, `i` or `j`
fn word_of_hij(bytes: &[u8]) -> Tag
    ensures { kind_of result 0 ≡ word_in words_of_hij bytes.now }
{
    match bytes {
        b"halt" => Tag::Halt,
        b"int" => Tag::Int,
        b"jmp" => Tag::Jmp,
        _ => Tag::Name,
    }
}

// the same with `l` or `p`
fn word_of_lp(bytes: &[u8]) -> Tag
    ensures { kind_of result 0 ≡ word_in words_of_lp bytes.now }
{
    match bytes {
        b"ld" => Tag::Ld,
        b"pack" => Tag::Pack,
        _ => Tag::Name,
    }
}

// the same with `m`
fn word_of_m(bytes: &[u8]) -> Tag
    ensures { kind_of result 0 ≡ word_in words_of_m bytes.now }
{
    match bytes {
        b"mul" => Tag::Mul,
        b"mov" => Tag::Mov,
        _ => word_or_name(bytes, b"malloc".as_slice(), Tag::Malloc),
    }
}

// the same with `s`
fn word_of_s(bytes: &[u8]) -> Tag
    ensures { kind_of result 0 ≡ word_in words_of_s bytes.now }
{
    match bytes {
        b"some" => Tag::Some,
        b"sub" => Tag::Sub,
        b"st" => Tag::St,
        _ => Tag::Name,
    }
}

// the same with `t` or `u`
fn word_of_tu(bytes: &[u8]) -> Tag
    ensures { kind_of result 0 ≡ word_in words_of_tu bytes.now }
{
    match bytes {
        b"tal" => Tag::Tal,
        _ => word_or_name(bytes, b"unpack".as_slice(), Tag::Unpack),
    }
}

// A word that is no register token: the first byte leaves three reserved words at most.
fn word(bytes: &[u8]) -> Tag
    ensures { kind_of result 0 ≡ word_in words bytes.now }
{
    if bytes.is_empty() {
        return Tag::Name;
    }
    match bytes[0] {
        b'a' => word_of_a(bytes),
        b'b'..=b'd' => word_of_bcd(bytes),
        b'h'..=b'j' => word_of_hij(bytes),
        b'l' | b'p' => word_of_lp(bytes),
        b'm' => word_of_m(bytes),
        b's' => word_of_s(bytes),
        b't' | b'u' => word_of_tu(bytes),
        _ => Tag::Name,
    }
}

fn sign(b: u8) -> Option<Tag>
    ensures { of_tag result ≡ look signs b }
{
    match b {
        b'[' => Some(Tag::LeftBracket),
        b']' => Some(Tag::RightBracket),
        b'{' => Some(Tag::LeftBrace),
        b'}' => Some(Tag::RightBrace),
        b'<' => Some(Tag::LeftAngle),
        b'>' => Some(Tag::RightAngle),
        b',' => Some(Tag::Comma),
        b'.' => Some(Tag::Dot),
        b':' => Some(Tag::Colon),
        b'^' => Some(Tag::Caret),
        _ => None,
    }
}

fn plain(digits: Digits) -> Found<Tagged>
    ensures { result ≡ plain_found digits }
{
    if digits.fits && digits.value <= i64::MAX as u64 {
        Found::Read(Tagged::new(Tag::Plain, digits.value), digits.end)
    } else {
        Found::Large(digits.end)
    }
}

fn negative(digits: Digits) -> Found<Tagged>
    requires { digits.fits ≡ true → digits.value ≤ 2 ^ 63 }
    ensures { result ≡ negative_found digits }
{
    if digits.fits {
        Found::Read(Tagged::new(Tag::Negative, digits.value), digits.end)
    } else {
        Found::Large(digits.end)
    }
}

// Whether a letter, a digit or an underscore stands at a place. Most bytes that end a word are below all of these.
fn goes_on(text: &[u8], at: usize) -> bool
    ensures { result ≡ goes_on (drop at text.now) }
{
    at < text.len() && text[at] >= b'0' && is_of_word(text[at])
}

// the digits of the register token at a place, where the word there is one: `r`, and digits to its end
#[inline(always)]
fn register(text: &[u8], at: usize) -> Option<Digits>
    requires { at < length text.now }
    ensures { IsRegisterAt text.now at result }
{
    if text[at] != b'r' {
        return None;
    }
    let digits = digits_at(text, at + 1);
    if goes_on(text, digits.end) {
        return None;
    }
    if digits.end == at + 1 {
        return None;
    }
    Some(digits)
}

fn numbered(digits: Digits) -> Found<Tagged>
    ensures { result ≡ register_found digits }
{
    if digits.fits && digits.value >= 1 && digits.value <= i64::MAX as u64 {
        Found::Read(Tagged::new(Tag::Register, digits.value), digits.end)
    } else {
        Found::Large(digits.end)
    }
}

// what stands at a place where neither white space nor a sign nor a register token does, if it is rare
#[inline(never)]
fn find_rare(text: &[u8], at: usize) -> Found<Tagged>
    requires at { at < length text.now }
    requires sign { look signs (get_or text.now at 0) ≡ None }
    requires register { is_register (word_at (drop at text.now)) ≡ false }
    ensures { IsFound assembly text.now at result }
{
    match next_lexeme(text, at) {
        Lexeme::Blank(end) => Found::Skip(end),
        Lexeme::Word(end) => Found::Read(Tagged::bare(word(&text[at..end])), end),
        Lexeme::Plain(digits) => plain(digits),
        Lexeme::Negative(digits) => negative(digits),
        Lexeme::Other => Found::Bad,
    }
}

// what stands at a place where neither a sign nor a register token does
#[inline(always)]
fn find_other(text: &[u8], at: usize) -> Found<Tagged>
    requires at { at < length text.now }
    requires sign { look signs (get_or text.now at 0) ≡ None }
    requires register { is_register (word_at (drop at text.now)) ≡ false }
    ensures { IsFound assembly text.now at result }
{
    if is_letter(text[at]) {
        let end = word_end(text, at + 1);
        return Found::Read(Tagged::bare(word(&text[at..end])), end);
    }
    if is_digit(text[at]) {
        return plain(digits_at(text, at));
    }
    find_rare(text, at)
}

/// What stands at a place, where that is one of the shortest forms, as most are: white space of one byte, a sign, or a
/// register of one digit from 1 to 9.
#[derive(Drop)]
pub(crate) enum Short {
    Blank,
    Sign(Tag),
    Register(u8),
    Other,
}

// the register at a place, where one of one digit from 1 to 9 stands there
#[inline(always)]
fn short_register(text: &[u8], at: usize) -> Short
    requires { at < length text.now }
    ensures { IsShort text.now at result }
{
    if text[at] != b'r' || at + 1 >= text.len() {
        return Short::Other;
    }
    let digit = text[at + 1];
    if digit < b'1' || digit > b'9' {
        return Short::Other;
    }
    if goes_on(text, at + 2) {
        return Short::Other;
    }
    Short::Register(digit - b'0')
}

/// What stands at a place before the end of an assembly text, where that is one of the shortest forms.
#[inline(always)]
pub(crate) fn short_at(text: &[u8], at: usize) -> Short
    requires { at < length text.now }
    ensures { IsShort text.now at result }
{
    if is_space(text[at]) {
        return Short::Blank;
    }
    match sign(text[at]) {
        Some(tag) => Short::Sign(tag),
        None => short_register(text, at),
    }
}

/// What stands at a place before the end of an assembly text.
#[inline(always)]
pub fn find(text: &[u8], at: usize) -> Found<Tagged>
    requires { at < length text.now }
    ensures { IsFound assembly text.now at result }
{
    if is_space(text[at]) {
        return Found::Skip(at + 1);
    }
    match sign(text[at]) {
        Some(tag) => Found::Read(Tagged::bare(tag), at + 1),
        None => match register(text, at) {
            Some(digits) => numbered(digits),
            None => find_other(text, at),
        },
    }
}
