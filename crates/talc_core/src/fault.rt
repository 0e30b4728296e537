// The faults of both kinds of text.
ghost use Rattle.std.specs.Prelude.{◌≡◌};

use crate::fault::codes::{source_code, source_words, tal_code, tal_words};
use crate::status::Status;
use f_terms::Code;
use idx_core::Span;
use std::error::Error;
use std::fmt;
use t_terms::TCode;

pub(crate) mod codes;
pub(crate) mod wanted;

/// The first fault of a text: the rule or limit that it breaks, and the place.
#[derive(Clone, Copy, Debug, PartialEq, Eq, Drop)]
pub enum Fault {
    /// Of a source text.
    Source(Code, Span),
    /// Of an assembly text.
    Tal(TCode, Span),
}

impl Fault {
    ghost use Rattle.talc_core.specs.Fault.{is_limit, status_of};

    fn is_limit(self) -> bool
        ensures { result ≡ is_limit self }
    {
        match self {
            Fault::Source(Code::L1 | Code::L2 | Code::L3 | Code::L4 | Code::L5, _) => true,
            Fault::Tal(TCode::M1, _) => true,
            _ => false,
        }
    }

    /// The status of a call that refuses a text by this fault: `Limit` where a limit is passed, else `Refused`.
    pub fn status(self) -> Status
        ensures { result ≡ status_of self }
    {
        if self.is_limit() {
            Status::Limit
        } else {
            Status::Refused
        }
    }
}

impl fmt::Display for Fault {
    ghost use Rattle.std.specs.Prelude.{Some};
    ghost use Rattle.talc_core.specs.Lines.{fault_text};

    ghost output = { λ f. Some (fault_text f) };

    fn fmt<W: fmt::Write>(&self, f: &mut fmt::Formatter<W>) -> fmt::Result {
        let (code, span, words) = match *self {
            Fault::Source(code, span) => (source_code(code), span, source_words(code)),
            Fault::Tal(code, span) => (tal_code(code), span, tal_words(code)),
        };
        write!(f, "{code} {}..{} {words}", span.start, span.end)
    }
}

impl Error for Fault {}
