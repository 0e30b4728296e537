// Lines and columns of bytes that mostly follow one another.
ghost use Rattle.std.specs.Prelude.{◌≡◌, ◌<◌, ◌≤◌, ◌+◌, length, if◌then◌else◌};
ghost use Rattle.page_core.specs.Spot.{line_number, column, ends_line};
ghost use Rattle.types_page.specs.Writing.{HasLine, Counted};

// How far a text has been gone through; the number of the line there, from 1 on, and where it begins.
#[derive(Drop)]
pub(crate) struct Place<'a> {
    pub(crate) text: &'a [u8],
    pub(crate) at: usize,
    pub(crate) number: u64,
    pub(crate) begin: usize,
}

// The number of the line behind a byte, and where it begins.
fn behind(byte: u8, at: usize, number: u64, begin: usize) -> (u64, usize)
    requires room { at < 9223372036854775808 }
    requires least { number ≤ at + 1 }
    ensures number { result.0 ≡ (if ends_line byte then number + 1 else number) }
    ensures begin { result.1 ≡ (if ends_line byte then at + 1 else begin) }
{
    if byte == b'\n' {
        return (number + 1, at + 1);
    }
    (number, begin)
}

// The line of the byte `to`, from that of the byte `from` before it.
#[tactic(auto, using(crate::proofs::Marks::counted_more))]
fn line_from(text: &[u8], from: usize, number: u64, begin: usize, to: usize) -> (u64, usize)
    requires order { from ≤ to }
    requires bound { to ≤ length text.now }
    requires line { Counted text.now from number begin }
    ensures { Counted text.now to result.0 result.1 }
{
    let mut number = number;
    let mut begin = begin;
    for i in from..to {
        let (next, start) = behind(text[i], i, number, begin);
        number = next;
        begin = start;
    }
    (number, begin)
}

impl<'a> Place<'a> {
    // The start of a text.
    pub(crate) fn first(text: &'a [u8]) -> Place<'a>
        ensures text { result.text ≡ text.entry }
        ensures place { HasLine result }
    {
        Place {
            text,
            at: 0,
            number: 1,
            begin: 0,
        }
    }

    // The line of a byte and its column there, both from 1 on. Where it stands before the last one, the text is gone
    // through anew.
    pub(crate) fn to(&mut self, byte: u64) -> (u64, u64)
        requires { HasLine self.old }
        ensures place { HasLine self.new }
        ensures text { self.new.text ≡ self.old.text }
        ensures line { result.0 ≡ line_number self.old.text.now byte }
        ensures column { result.1 ≡ column self.old.text.now byte }
    {
        let to = self.text.len().min(byte as usize);
        if to < self.at {
            self.at = 0;
            self.number = 1;
            self.begin = 0;
        }
        let (number, begin) = line_from(self.text, self.at, self.number, self.begin, to);
        self.at = to;
        self.number = number;
        self.begin = begin;
        (number, (to - begin) as u64 + 1)
    }
}
