// The words of data, and where they stand.
ghost use Rattle.std.specs.Prelude.{◌≡◌, ℕ, ◌+◌, ◌*◌, List, [], ◌∷◌, ◌++◌, length, map, IfOk, OnOk, slice_index};
ghost use Rattle.t_terms.specs.Read.{value as value_tree, data_fields, data_of};
ghost use Rattle.t_terms.specs.Spanned.{plain_fields};
ghost use Rattle.t_rules.specs.Erase.{erase_value, erase_datum, field_word, base_word, no_ewords};
ghost use Rattle.w_terms.specs.declared.program.WDatum.TheVariants as D;
ghost use Rattle.w_rooms.specs.Numbers.{bytes};
ghost use Rattle.w_laws.specs.Code.{datum, data_words};
ghost use Rattle.w_gen.specs.Data.{addresses_of};

use crate::values::{address, base_of, label};
use idx_core::{OutOfMemory, Span};
use std::alloc::Global;
use t_terms::{Base, Data, Value};
use t_types::TType;
use w_terms::WDatum;

// The address of the first field of each data tuple, where the words of data begin at `start`.
pub(crate) fn addresses(alloc: Global, heap: &[Data], start: u64) -> Result<Vec<u64>, OutOfMemory>
    ensures { IfOk result (λ v. v.items ≡ addresses_of start (data_of heap.now)) }
{
    let mut places = Vec::new(alloc);
    let mut next = start;
    for tuple in heap {
        let first = plus(next, 8)?;
        places.push(first)?;
        let after = behind_tuple(next, tuple)?;
        next = after;
    }
    Ok(places)
}

pub(crate) fn plus(a: u64, b: u64) -> Result<u64, OutOfMemory>
    ensures { IfOk result (λ n. n ≡ a + b) }
{
    match a.checked_add(b) {
        Some(n) => Ok(n),
        None => Err(OutOfMemory),
    }
}

// Where a tuple ends whose word with its size is at the address.
fn behind_tuple(a: u64, tuple: &Data) -> Result<u64, OutOfMemory>
    ensures { IfOk result (λ n. n ≡ a + bytes (length tuple.now.fields.items)) }
{
    let count = tuple.fields.len() as u64;
    let words = plus(count, 1)?;
    let Some(size) = words.checked_mul(8) else {
        return Err(OutOfMemory);
    };
    plus(a, size)
}

// Puts the words of all data tuples.
pub(crate) fn words(
    image: &mut Vec<WDatum>,
    heap: &[Data],
    places: &[u64],
) -> Result<(), OutOfMemory>
    ensures { OnOk result (image.new.items ≡ image.old.items
        ++ data_words (slice_index places.now) (map (map erase_datum) (data_of heap.now))) }
{
    for tuple in heap {
        tuple_words(image, &tuple.fields, places)?;
    }
    Ok(())
}

// Puts the words of a data tuple.
fn tuple_words(
    image: &mut Vec<WDatum>,
    fields: &[(Value, TType, Span)],
    places: &[u64],
) -> Result<(), OutOfMemory>
    ensures { OnOk result (image.new.items ≡ image.old.items ++ D.Number (length fields.now)
        ∷ map (datum (slice_index places.now)) (map erase_datum (plain_fields (data_fields fields.now)))) }
{
    image.push(WDatum::Number(fields.len() as u64))?;
    for field in fields {
        let w = word(&field.0, places)?;
        image.push(w)?;
    }
    Ok(())
}

// The word of a value of data.
fn word(v: &Value, places: &[u64]) -> Result<WDatum, OutOfMemory>
    ensures { IfOk result (λ w. w ≡ datum (slice_index places.now)
        (field_word (base_word no_ewords (erase_value (value_tree v.now))))) }
{
    match base_of(v) {
        Base::Reg(_) => Ok(WDatum::Number(0)),
        Base::Int(i) => Ok(WDatum::Number(i.cast_unsigned())),
        Base::Label(l) => {
            let label = label(l)?;
            Ok(WDatum::Label(label))
        }
        Base::Data(d) => Ok(WDatum::Number(address(places, d))),
    }
}
