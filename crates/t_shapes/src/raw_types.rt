// Types before names are resolved.

use idx_core::Span;

/// A type of an assembly text in which a name is the place where it stands. `Code` has the names that it binds, and
/// `Some` the one.
#[derive(Drop)]
#[cycle(types)]
pub enum RawType {
    Int,
    Name(Span),
    Code(Vec<Span>, RawFile),
    Some(Span, Box<RawType>),
    Tuple(Vec<(RawType, bool)>),
}

/// A register file type as it stands in a text: registers, each with the place of its token, and their types.
#[derive(Drop)]
#[cycle(types)]
pub struct RawFile {
    pub regs: Vec<(u64, Span, RawType)>,
}
