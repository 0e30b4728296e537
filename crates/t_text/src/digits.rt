// The digits of a token.
ghost use Rattle.std.specs.Prelude.{◌≡◌, ◌+◌, ◌≤◌, length, take, drop};
ghost use Rattle.std.specs.List.{prefix_len};
ghost use Rattle.text_core.specs.Byte as byte;
ghost use Rattle.text_core.specs.Lexeme.{IsValue};

use text_core::{Digits, is_digit, read_digits};

// The least value to which no digit is added without a look at its bound: a tenth of 2 to the power of 63.
const TENTH: u64 = 922337203685477580;

/// The digits that stand from `at` on, as `read_digits` gives them. Nearly all are few, and need no division.
pub fn digits_at(text: &[u8], at: usize) -> Digits
    requires { at ≤ length text.now }
    ensures end { result.end ≡ at + prefix_len byte.digit (drop at text.now) }
    ensures is_value { IsValue result.value result.fits (take (prefix_len byte.digit (drop at text.now))
        (drop at text.now)) }
{
    let mut value = 0u64;
    let mut i = at;
    while i < text.len() && is_digit(text[i]) {
        if value >= TENTH {
            return read_digits(text, at);
        }
        value = value * 10 + (text[i] - 48) as u64;
        i += 1;
    }
    Digits {
        value,
        fits: true,
        end: i,
    }
}
