// The numbers of lines, for places that mostly follow one another.
ghost use Rattle.std.specs.Prelude.{◌≡◌, ◌≤◌, length, take};
ghost use Rattle.page_core.specs.Spot.{line_number, lines};
ghost use Rattle.listing.specs.Writing.{HasLine};

// How far a text has been gone through, and the number of the line there, from 1 on.
#[derive(Drop)]
pub(crate) struct Place<'a> {
    pub(crate) text: &'a [u8],
    pub(crate) at: usize,
    pub(crate) number: u64,
}

// The number of the line of the byte `to`, from that of the byte `from` before it.
fn number_at(text: &[u8], from: usize, number: u64, to: usize) -> u64
    requires order { from ≤ to }
    requires bound { to ≤ length text.now }
    requires number { number ≡ lines (take from text.now) }
    ensures { result ≡ lines (take to text.now) }
{
    let mut number = number;
    for i in from..to {
        if text[i] == b'\n' {
            number += 1;
        }
    }
    number
}

impl<'a> Place<'a> {
    // The start of a text.
    pub(crate) fn first(text: &'a [u8]) -> Place<'a>
        ensures text { result.text ≡ text.entry }
        ensures place { HasLine result }
    {
        Place {
            text,
            at: 0,
            number: 1,
        }
    }

    // The number of the line of a byte. Where it stands before the last one, the text is gone through anew.
    pub(crate) fn line_of(&mut self, byte: u64) -> u64
        requires { HasLine self.old }
        ensures place { HasLine self.new }
        ensures text { self.new.text ≡ self.old.text }
        ensures number { result ≡ line_number self.old.text.now byte }
    {
        let to = self.text.len().min(byte as usize);
        if to < self.at {
            self.at = 0;
            self.number = 1;
        }
        self.number = number_at(self.text, self.at, self.number, to);
        self.at = to;
        self.number
    }
}
