// How far a jump leads.
ghost use Rattle.std.specs.Prelude.{◌≡◌, ◌≢◌, ℤ, pos, ◌+ℤ◌, FitsSigned, IfSome, IfNone};
ghost use Rattle.std.specs.Int.{w32};
ghost use Rattle.x_terms.specs.Machine.{plus, word};

/// The number by which a jump leads to an address from the one behind it, or `None` exactly where it has more than 32
/// bits.
pub fn distance(next: u64, target: u64) -> Option<i32>
    ensures leads { IfSome result (λ d. plus next (word d) ≡ target) }
    ensures far { IfNone result ((d : ℤ) → FitsSigned w32 d → pos next +ℤ d ≢ pos target) }
{
    if target < next {
        let down = next - target;
        if down > 0x8000_0000 {
            return None;
        }
        return Some(-(down as i64) as i32);
    }
    let up = target - next;
    if up >= 0x8000_0000 {
        return None;
    }
    Some(up as i32)
}
