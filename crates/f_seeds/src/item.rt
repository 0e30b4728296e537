// One item of a source: a kind of expression with a number in it.
ghost use Rattle.std.specs.Prelude.{◌≡◌, ◌++◌, ◌+◌, ◌*◌, ◌%◌, ◌<◌, decimal, OnOk};
ghost use Rattle.f_seeds.specs.Source.{kind_of, number_of, item};

use idx_core::OutOfMemory;
use itoa::Buffer;

/// The kinds of items (own choice).
#[derive(Copy, Clone)]
pub enum Kind {
    /// The number itself.
    Number,
    /// The factorial of the number, by a recursive function.
    Factorial,
    /// The second field of a tuple.
    Field,
    /// The identity of all types, at `int`.
    Identity,
    /// A branch on the number.
    Branch,
    /// A function that is passed to another, which applies it twice.
    Twice,
}

// The kind of the item at a place of the source of a seed.
pub(crate) fn kind_of(seed: u64, place: u64) -> Kind
    requires { place < 64 }
    ensures { result ≡ kind_of seed place }
{
    match (seed % 6 + place) % 6 {
        0 => Kind::Number,
        1 => Kind::Factorial,
        2 => Kind::Field,
        3 => Kind::Identity,
        4 => Kind::Branch,
        _ => Kind::Twice,
    }
}

// The number in the item at a place of the source of a seed.
pub(crate) fn number_of(seed: u64, place: u64) -> u64
    requires { place < 64 }
    ensures { result ≡ number_of seed place }
{
    (seed % 20 + 7 * place) % 20
}

// Puts a number in decimal at the end of a text, between two pieces.
fn write_around(
    text: &mut Vec<u8>,
    before: &[u8],
    number: u64,
    after: &[u8],
) -> Result<(), OutOfMemory>
    ensures { OnOk result (text.new.items ≡ text.old.items ++ (before.now ++ decimal number ++ after.now)) }
{
    let mut buffer = Buffer::new();
    text.extend_from_slice(before)?;
    text.extend_from_slice(buffer.format(number).as_bytes())?;
    text.extend_from_slice(after)?;
    Ok(())
}

// Puts an item at the end of a text.
pub(crate) fn write_item(text: &mut Vec<u8>, kind: Kind, number: u64) -> Result<(), OutOfMemory>
    ensures { OnOk result (text.new.items ≡ text.old.items ++ item kind number) }
{
    match kind {
        Kind::Number => write_around(text, b"", number, b""),
        Kind::Factorial => write_around(
            text,
            b"(fix f(n:int):int. if0(n, 1, n * f(n - 1))) ",
            number,
            b"",
        ),
        Kind::Field => {
            write_around(text, b"#2 <", number, b", ")?;
            write_around(text, b"", number, b" + 1, <>>")
        }
        Kind::Identity => write_around(text, b"(gen a. fix i(x:a):a. x)[int] ", number, b""),
        Kind::Branch => write_around(text, b"if0(", number, b", 1, 2)"),
        Kind::Twice => write_around(
            text,
            b"(fix t(g:int -> int):int. g (g ",
            number,
            b")) (fix s(y:int):int. y * 3)",
        ),
    }
}
