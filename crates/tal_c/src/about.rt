// What a host can ask of the library itself.
ghost use Rattle.std.specs.Prelude.{◌≡◌};
ghost use Rattle.tal_c.specs.Places.{guest_size, guest_align};

use crate::guest::Guest;
use std::mem::{align_of, size_of};

// The exports, their structs and the room of `talc.h`: a host that was built with another number is not this library's.
const VERSION: u32 = 1;

// What `talc.h` gives a guest.
const _: () = prove!(size_of::<Guest>() <= 512);

const _: () = prove!(align_of::<Guest>() <= 8);

/// The version of the library.
#[unsafe(no_mangle)]
pub extern "C" fn talc_version() -> u32
    ensures { result ≡ 1 }
{
    VERSION
}

/// How many bytes a guest takes.
#[unsafe(no_mangle)]
pub extern "C" fn talc_guest_size() -> usize
    ensures { result ≡ guest_size }
{
    size_of::<Guest>()
}

/// At a multiple of which address a guest stands.
#[unsafe(no_mangle)]
pub extern "C" fn talc_guest_align() -> usize
    ensures { result ≡ guest_align }
{
    align_of::<Guest>()
}
