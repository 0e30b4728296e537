// Small values.
ghost use Rattle.std.specs.Prelude.{◌≡◌, ◌++◌, ℕ, OnOk};
ghost use Rattle.t_types.specs.Read.{types as types_of};
ghost use Rattle.t_types.specs.WellFormed.{WellFormedTypes};
ghost use Rattle.t_terms.specs.Read.{base as base_of, value as value_of};
ghost use Rattle.t_terms.specs.Whole.{WellFormedValue};
ghost use Rattle.t_writer.specs.Lexeme.{bytes, render};
ghost use Rattle.t_writer.specs.Written.{base_written, args_written, value_written};

use crate::names::write_name;
use crate::number::write_integer;
use crate::types::{write_list, write_type};
use idx_core::OutOfMemory;
use t_terms::{Base, Value};
use t_types::TType;

// A base of a value.
fn write_base(text: &mut Vec<u8>, base: &Base) -> Result<(), OutOfMemory>
    ensures { OnOk result (text.new.items ≡ text.old.items ++ bytes (base_written (base_of base.now))) }
{
    match base {
        Base::Reg(r) => write_name(text, b'r', *r),
        Base::Int(i) => write_integer(text, *i),
        Base::Label(l) => write_name(text, b'L', *l),
        Base::Data(d) => write_name(text, b'D', *d),
    }
}

// The types that a base is applied to, where there are any.
fn write_args(text: &mut Vec<u8>, args: &[TType], depth: u64) -> Result<(), OutOfMemory>
    requires { WellFormedTypes depth (types_of args.now) }
    ensures { OnOk result (text.new.items ≡ text.old.items ++ render (args_written depth (types_of args.now))) }
{
    if args.is_empty() {
        return Ok(());
    }
    write_list(text, args, depth)
}

// A value inside `depth` type names.
pub(crate) fn write_value(text: &mut Vec<u8>, v: &Value, depth: u64) -> Result<(), OutOfMemory>
    requires { (blocks heap : ℕ) × WellFormedValue blocks heap depth (value_of v.now) }
    ensures { OnOk result (text.new.items ≡ text.old.items ++ render (value_written depth (value_of v.now))) }
{
    match v {
        Value::Plain { base, types } => {
            write_base(text, base)?;
            write_args(text, types, depth)
        }
        Value::Pack {
            hidden,
            inner,
            shape,
        } => {
            text.extend_from_slice(b"pack[")?;
            write_type(text, hidden, depth)?;
            text.extend_from_slice(b", ")?;
            write_value(text, inner, depth)?;
            text.extend_from_slice(b"] as ")?;
            write_type(text, shape, depth)?;
            Ok(())
        }
    }
}
