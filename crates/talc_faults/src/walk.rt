// The tokens of a text one after the other: the last two, and the constructs that are open behind them.
ghost use Rattle.std.specs.Prelude.{◌≡◌, ◌≤◌, length};
ghost use Rattle.talc_faults.specs.Walk.{joined, sign_size, token_size, word_size, gap_size, token_behind, token_at};
ghost use Rattle.talc_faults.specs.Walk.{deeper, higher, with_mode, begun, comment};
ghost use Rattle.talc_faults.specs.Walk.{with_depth, noted, opened, closed, with_lets, passed, met, counted};
ghost use Rattle.talc_faults.specs.Walk.{sign_begun, other, behind_minus, step, at_start, walked};

use crate::around::{bytes_at, bytes_from};
use crate::words::{is, opens};
use text_core::{is_of_word, is_space};

/// What the last byte was of.
#[derive(Clone, Copy, Debug, PartialEq, Eq, Drop)]
pub(crate) enum Mode {
    /// A blank, or a sign that is a token by itself.
    Between,
    /// A word.
    InWord,
    /// A `-`.
    Minus,
    /// A comment.
    Comment,
}

/// Where a name is bound.
#[derive(Clone, Copy, Debug, PartialEq, Eq, Drop)]
pub(crate) enum Seen {
    /// Nowhere.
    Nowhere,
    /// By a `let` whose own value goes on.
    Own,
    /// By one that came to its `in`, or by a `fix`.
    Ended,
}

/// How far a walk over a text has come. Tokens are told by where they begin; where there is none, by the text's end.
#[derive(Clone, Copy, Drop)]
pub(crate) struct Walk {
    pub(crate) mode: Mode,
    /// The last token, and the one before it.
    pub(crate) last: u64,
    pub(crate) before: u64,
    /// How many brackets are open, and at how many the one is that is looked for.
    pub(crate) depth: u64,
    pub(crate) wanted: u64,
    /// The last bracket that opened at that depth, and the two tokens before it.
    pub(crate) bracket: u64,
    pub(crate) by: u64,
    pub(crate) behind: u64,
    /// How many `let`s and `open`s wait for their `in`, and at how many the name's own `let` waits.
    pub(crate) lets: u64,
    pub(crate) own: u64,
    pub(crate) seen: Seen,
}

// How many bytes of a word these begin with.
fn word_size(bytes: &[u8]) -> usize
    ensures size { result ≡ word_size bytes.now }
    ensures bound { result ≤ length bytes.now }
{
    let mut size = 0;
    while size < bytes.len() && is_of_word(bytes[size]) {
        size += 1;
    }
    size
}

// Whether two signs are one token.
fn joined(first: u8, second: u8) -> bool
    ensures { result ≡ joined first second }
{
    first == b'-' && second == b'>' || first == b':' && second == b'='
}

// How many bytes the sign has that these begin with.
fn sign_size(bytes: &[u8]) -> usize
    ensures { result ≡ sign_size bytes.now }
{
    match bytes {
        [first, second, ..] => {
            if joined(*first, *second) {
                return 2;
            }
            1
        }
        _ => 1,
    }
}

// How many bytes the token has that these begin with.
fn token_size(bytes: &[u8]) -> usize
    ensures { result ≡ token_size bytes.now }
{
    let size = word_size(bytes);
    if size > 0 {
        return size;
    }
    sign_size(bytes)
}

// How many blanks these begin with.
fn gap_size(bytes: &[u8]) -> usize
    ensures size { result ≡ gap_size bytes.now }
    ensures bound { result ≤ length bytes.now }
{
    let mut size = 0;
    while size < bytes.len() && is_space(bytes[size]) {
        size += 1;
    }
    size
}

// The token behind the blanks that these begin with.
pub(crate) fn token_behind(bytes: &[u8]) -> &[u8]
    ensures { result.now ≡ token_behind bytes.now }
{
    token_at(bytes, gap_size(bytes) as u64)
}

// The token that begins behind so many bytes.
pub(crate) fn token_at(text: &[u8], start: u64) -> &[u8]
    ensures { result.now ≡ token_at text.now start }
{
    let bytes = bytes_from(text, start);
    bytes_at(bytes, 0, token_size(bytes) as u64)
}

// One more, or one less.
fn deeper(depth: u64) -> u64
    ensures { result ≡ deeper depth }
{
    if depth < 100_000 {
        return depth + 1;
    }
    depth
}

fn higher(depth: u64) -> u64
    ensures { result ≡ higher depth }
{
    depth.saturating_sub(1)
}

// The last byte was of this.
fn with_mode(w: Walk, mode: Mode) -> Walk
    ensures { result ≡ with_mode w mode }
{
    let mut next = w;
    next.mode = mode;
    next
}

// A token begins.
fn begun(w: Walk, at: u64, mode: Mode) -> Walk
    ensures { result ≡ begun w at mode }
{
    let mut next = w;
    next.before = w.last;
    next.last = at;
    next.mode = mode;
    next
}

// What began with a `-` is a comment, and no token.
fn comment(w: Walk, none: u64) -> Walk
    ensures { result ≡ comment w none }
{
    let mut next = w;
    next.last = w.before;
    next.before = none;
    next.mode = Mode::Comment;
    next
}

// So many brackets are open.
fn with_depth(w: Walk, depth: u64) -> Walk
    ensures { result ≡ with_depth w depth }
{
    let mut next = w;
    next.depth = depth;
    next
}

// The bracket is the last one at the depth that is looked for.
fn noted(w: Walk, at: u64) -> Walk
    ensures { result ≡ noted w at }
{
    let mut next = w;
    next.bracket = at;
    next.by = w.last;
    next.behind = w.before;
    next
}

// A bracket begins.
fn opened(w: Walk, at: u64) -> Walk
    ensures { result ≡ opened w at }
{
    let depth = deeper(w.depth);
    if depth == w.wanted {
        return begun(with_depth(noted(w, at), depth), at, Mode::Between);
    }
    begun(with_depth(w, depth), at, Mode::Between)
}

// A bracket ends.
fn closed(w: Walk, at: u64) -> Walk
    ensures { result ≡ closed w at }
{
    begun(with_depth(w, higher(w.depth)), at, Mode::Between)
}

// So many `let`s wait, the name's own one at this number, and the name was seen so.
fn with_lets(w: Walk, lets: u64, own: u64, seen: Seen) -> Walk
    ensures { result ≡ with_lets w lets own seen }
{
    let mut next = w;
    next.lets = lets;
    next.own = own;
    next.seen = seen;
    next
}

// An `in` ends a `let`.
fn passed(w: Walk) -> Walk
    ensures { result ≡ passed w }
{
    let lets = higher(w.lets);
    if w.own > lets {
        return with_lets(w, lets, 0, Seen::Ended);
    }
    with_lets(w, lets, w.own, w.seen)
}

// The name stands behind this word.
fn met(binder: &[u8], w: Walk) -> Walk
    ensures { result ≡ met binder.now w }
{
    if is(binder, b"let".as_slice()) {
        return with_lets(w, w.lets, w.lets, Seen::Own);
    }
    if is(binder, b"fix".as_slice()) && w.own == 0 {
        return with_lets(w, w.lets, 0, Seen::Ended);
    }
    w
}

// What a word changes.
fn counted(text: &[u8], name: &[u8], word: &[u8], w: Walk) -> Walk
    ensures { result ≡ counted text.now name.now word.now w }
{
    if opens(word) {
        return with_lets(w, deeper(w.lets), w.own, w.seen);
    }
    if is(word, b"in".as_slice()) {
        return passed(w);
    }
    if is(word, name) {
        return met(token_at(text, w.last), w);
    }
    w
}

// A sign begins.
fn sign_begun(w: Walk, at: u64, byte: u8) -> Walk
    ensures { result ≡ sign_begun w at byte }
{
    match byte {
        b'(' => opened(w, at),
        b'<' => opened(w, at),
        b'[' => opened(w, at),
        b'{' => opened(w, at),
        b')' => closed(w, at),
        b'>' => closed(w, at),
        b']' => closed(w, at),
        b'}' => closed(w, at),
        b'-' => begun(w, at, Mode::Minus),
        _ => begun(w, at, Mode::Between),
    }
}

// A byte that goes on with no token.
fn other(text: &[u8], name: &[u8], w: Walk, at: u64, byte: u8) -> Walk
    ensures { result ≡ other text.now name.now w at byte }
{
    if is_of_word(byte) {
        return begun(counted(text, name, token_at(text, at), w), at, Mode::InWord);
    }
    if is_space(byte) {
        return with_mode(w, Mode::Between);
    }
    sign_begun(w, at, byte)
}

// A byte behind a `-`.
fn behind_minus(text: &[u8], name: &[u8], w: Walk, at: u64, byte: u8) -> Walk
    ensures { result ≡ behind_minus text.now name.now w at byte }
{
    match byte {
        b'-' => comment(w, text.len() as u64),
        b'>' => with_mode(w, Mode::Between),
        _ => other(text, name, w, at, byte),
    }
}

// One byte.
fn step(text: &[u8], name: &[u8], w: Walk, at: u64, byte: u8) -> Walk
    ensures { result ≡ step text.now name.now w at byte }
{
    match w.mode {
        Mode::Comment => {
            if byte == b'\n' {
                return with_mode(w, Mode::Between);
            }
            w
        }
        Mode::InWord => {
            if is_of_word(byte) {
                return w;
            }
            other(text, name, w, at, byte)
        }
        Mode::Minus => behind_minus(text, name, w, at, byte),
        Mode::Between => other(text, name, w, at, byte),
    }
}

// Before the first byte.
fn at_start(text: &[u8], wanted: u64) -> Walk
    ensures { result ≡ at_start text.now wanted }
{
    let none = text.len() as u64;
    Walk {
        mode: Mode::Between,
        last: none,
        before: none,
        depth: 0,
        wanted,
        bracket: none,
        by: none,
        behind: none,
        lets: 0,
        own: 0,
        seen: Seen::Nowhere,
    }
}

// Behind the last byte, where a bracket at this depth and this name are looked for.
pub(crate) fn walked(text: &[u8], name: &[u8], wanted: u64) -> Walk
    ensures { result ≡ walked text.now name.now wanted }
{
    let mut w = at_start(text, wanted);
    let mut at = 0;
    while at < text.len() {
        w = step(text, name, w, at as u64, text[at]);
        at += 1;
    }
    w
}
