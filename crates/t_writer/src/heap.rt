// Data tuples.
ghost use Rattle.std.specs.Prelude.{◌≡◌, ◌++◌, ◌∷◌, [], ℕ, OnOk};
ghost use Rattle.t_types.specs.Read.{tree};
ghost use Rattle.t_types.specs.WellFormed.{WellFormed};
ghost use Rattle.t_terms.specs.Read.{value as value_of, data_fields, data_of};
ghost use Rattle.t_terms.specs.Spanned.{plain_fields};
ghost use Rattle.t_terms.specs.Whole.{WellFormedValue, WellFormedData, WellFormedHeap};
ghost use Rattle.t_writer.specs.Lexeme.{render};
ghost use Rattle.t_writer.specs.Written.{datum_written, data_fields_written, data_written, heap_written};

use crate::names::{write_name, write_separator};
use crate::types::write_type;
use crate::values::write_value;
use idx_core::{OutOfMemory, Span};
use t_terms::{Data, Value};
use t_types::TType;

// A value and the type that is written for it.
fn write_datum(text: &mut Vec<u8>, value: &Value, ty: &TType) -> Result<(), OutOfMemory>
    requires value { (blocks heap : ℕ) × WellFormedValue blocks heap 0 (value_of value.now) }
    requires ty { WellFormed 0 (tree ty.now) }
    ensures { OnOk result (text.new.items ≡
        text.old.items ++ render (datum_written (record { value = value_of value.now; ty = tree ty.now }))) }
{
    write_value(text, value, 0)?;
    text.extend_from_slice(b" : ")?;
    write_type(text, ty, 0)?;
    Ok(())
}

// The fields of a data tuple.
fn write_data_fields(text: &mut Vec<u8>, fields: &[(Value, TType, Span)]) -> Result<(), OutOfMemory>
    requires { (blocks heap : ℕ) × WellFormedData blocks heap (plain_fields (data_fields fields.now)) }
    ensures { OnOk result (text.new.items ≡
        text.old.items ++ render (data_fields_written 0 (plain_fields (data_fields fields.now)))) }
{
    for (i, field) in fields.iter().enumerate() {
        write_separator(text, i)?;
        write_datum(text, &field.0, &field.1)?;
    }
    Ok(())
}

// A data tuple by its number, on a line.
fn write_data(
    text: &mut Vec<u8>,
    number: u64,
    fields: &[(Value, TType, Span)],
) -> Result<(), OutOfMemory>
    requires { (blocks heap : ℕ) × WellFormedData blocks heap (plain_fields (data_fields fields.now)) }
    ensures { OnOk result (text.new.items ≡
        text.old.items ++ render (data_written number (plain_fields (data_fields fields.now)))) }
{
    write_name(text, b'D', number)?;
    text.extend_from_slice(b": data <")?;
    write_data_fields(text, fields)?;
    text.extend_from_slice(b">\n")?;
    Ok(())
}

// The data tuples in turn.
pub(crate) fn write_heap(text: &mut Vec<u8>, heap: &[Data]) -> Result<(), OutOfMemory>
    requires { (blocks count : ℕ) × WellFormedHeap blocks count (data_of heap.now) }
    ensures { OnOk result (text.new.items ≡
        text.old.items ++ render (heap_written 0 (data_of heap.now))) }
{
    for (i, tuple) in heap.iter().enumerate() {
        write_data(text, i as u64, &tuple.fields)?;
    }
    Ok(())
}
