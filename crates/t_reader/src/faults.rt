// The faults that refuse a text.
ghost use Rattle.std.specs.Prelude.{◌≡◌};
ghost use Rattle.t_terms.specs.declared.fault.TFault.TheVariants as fault;

use idx_core::Span;
use t_terms::{TCode, TFault};

pub(crate) fn refused(code: TCode, span: Span) -> TFault
    ensures { result ≡ fault.Refused code span }
{
    TFault::Refused { code, span }
}
