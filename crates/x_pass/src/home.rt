// Where the registers of word code live.
ghost use Rattle.std.specs.Prelude.{◌≡◌, None};
ghost use Rattle.x_pass.specs.Homes.{home, home_by, home_of};

use x_terms::Register;

/// A register, or a word of the memory with a fixed address.
#[derive(Clone, Copy)]
pub enum Home {
    InRegister(Register),
    InSlot(i32),
}

// The home of a register that is in the memory. One past the last has none: RAX stands for it, and no program that is
// taken names it.
fn slot_at(q: u64) -> Home
    ensures { home_of result ≡ home_by q None }
{
    if q < 0x0E00_0000 {
        return Home::InSlot((0x1000_0000 + 8 * q) as i32);
    }
    Home::InRegister(Register::Rax)
}

// The home of a register.
#[tactic(auto, unfolding(crate::specs::Homes::home))]
pub(crate) fn home_at(q: u64) -> Home
    ensures { home_of result ≡ home q }
{
    match q {
        0 => Home::InRegister(Register::Rbx),
        1 => Home::InRegister(Register::Rbp),
        4 => Home::InRegister(Register::R8),
        16 => Home::InRegister(Register::R9),
        17 => Home::InRegister(Register::R10),
        18 => Home::InRegister(Register::R12),
        19 => Home::InRegister(Register::R13),
        20 => Home::InRegister(Register::R14),
        21 => Home::InRegister(Register::R15),
        _ => slot_at(q),
    }
}
