// The exports: each is a call on bytes of `talc_core`, whose outcome is told. `room` is memory of the host, of which
// nothing but the head is written, and that only where all that is made fits.
ghost use Rattle.std.specs.Prelude.{◌≡◌, []};
ghost use Rattle.talc_core.specs.FirstFault.{AnyText, AnyTerm, CellFree};
ghost use Rattle.talc_core.specs.Explained.{ShowsExplained};
ghost use Rattle.talc_core.specs.Shown.{ShowsType, ShowsValue};
ghost use Rattle.talc_c.specs.Told.{CompileTold, ShowTold, Told};

use crate::answer::{Made, USAGE, put};
use crate::telling::{form_at, made_as, tell};
use std::alloc::Global;
use talc_core::{
    compile_text, compile_text_within, eval_text, explain_text, form_of_text, type_of_text,
};

// The exports, their struct and their numbers: a host that was built with another number is not this library's.
const VERSION: u32 = 1;

// Fewer are too few to compile within.
const FEWEST: u64 = 8;

/// The version of the library.
#[unsafe(no_mangle)]
pub extern "C" fn talc_compiler_version() -> u32
    ensures { result ≡ 1 }
{
    VERSION
}

/// Compiles a source text: the assembly text is put into the host's memory. `registers` is 0 for any number of them.
#[unsafe(no_mangle)]
pub extern "C" fn talc_compile(alloc: Global, text: &[u8], registers: u64, room: &mut [u8]) -> Made
    ensures { CompileTold registers text.now room.old room.new result }
{
    if registers == 0 {
        tell(room, made_as(compile_text(alloc, text)))
    } else if registers < FEWEST {
        put(USAGE, 0)
    } else {
        tell(room, made_as(compile_text_within(alloc, text, registers)))
    }
}

/// The type of a source text, and a line end.
#[unsafe(no_mangle)]
pub extern "C" fn talc_typeof(alloc: Global, text: &[u8], room: &mut [u8]) -> Made
    ensures { Told ShowsType AnyTerm text.now room.old room.new result }
{
    tell(room, type_of_text(alloc, text))
}

/// The line of what a source text evaluates to within so many turns, or that it goes on after them.
#[unsafe(no_mangle)]
pub extern "C" fn talc_eval(alloc: Global, text: &[u8], turns: u64, room: &mut [u8]) -> Made
    ensures { Told (ShowsValue turns) CellFree text.now room.old room.new result }
{
    tell(room, eval_text(alloc, text, turns))
}

/// The form of a number of the program of a source text.
#[unsafe(no_mangle)]
pub extern "C" fn talc_show(alloc: Global, text: &[u8], form: u32, room: &mut [u8]) -> Made
    ensures { ShowTold form text.now room.old room.new result }
{
    match form_at(form) {
        Some(form) => tell(room, form_of_text(alloc, text, form)),
        None => put(USAGE, 0),
    }
}

/// A page for people on the first fault of a text of either kind, which has no name, or that it has none.
#[unsafe(no_mangle)]
pub extern "C" fn talc_explain(alloc: Global, text: &[u8], room: &mut [u8]) -> Made
    ensures { Told (ShowsExplained []) AnyText text.now room.old room.new result }
{
    tell(room, explain_text(alloc, b"", text))
}
