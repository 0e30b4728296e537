// The nodes of a term, one by one.
ghost use Rattle.std.specs.Prelude.{◌≡◌, ℕ, suc, List, [], ◌∷◌, true, IfOk, OnOk, Option, None, map, option_map};
ghost use Rattle.std.specs.Prelude.{◌≤◌, length};
ghost use Rattle.h_terms.specs.Nodes.{h_blocks, HArity};
ghost use Rattle.h_terms.specs.Nodes as h;
ghost use Rattle.h_terms.specs.declared.node.HForm.TheVariants as H;
ghost use Rattle.a_terms.specs.Tree as a;
ghost use Rattle.a_terms.specs.Read.{atree};
ghost use Rattle.a_terms.specs.NodeTrees.{a_value};
ghost use Rattle.a_pass.specs.Scope.{Under, constant_in, knowns, type_in, typed, value_at};
ghost use Rattle.a_laws.specs.Allocate.{Known};
ghost use Rattle.a_pass.specs.Emits.{Emits, Declares, Ends, Stepped, Steps};

use crate::constants::constant_value;
use crate::emit::{after, content, malloc, under_all};
use crate::noting::{body_noted, field_noted, value_noted};
use crate::run::read;
use crate::scope::own;
use crate::state::{Around, ConstantOf, Kept, Name, Noted, Place, Progress, Run, Seen, TypeOf};
use crate::types::a_types;
use a_terms::parts::flagged_tuple;
use a_terms::{ABase, AData, AForm, ANode, AType, AValue};
use c_terms::CType;
use h_terms::{HBlock, HForm, HNode};
use idx_core::{Op, OutOfMemory};
use std::alloc::Global;

// What is known of the one value of a list.
fn only<'a>(types: Vec<Seen<'a>>) -> Seen<'a>
    ensures ty { (g : List a.ATy) (t : a.ATy) → map (type_in g) types.entry.items ≡ t ∷ [] → type_in g result ≡ t }
    ensures constant { (ls : List Known) (o : Option a.AVal) → map (constant_in ls) types.entry.items ≡ o ∷ [] →
        constant_in ls result ≡ o }
{
    let mut types = types;
    match types.pop() {
        Some(seen) => seen,
        None => Seen {
            ty: TypeOf::Own(AType::Int),
            constant: ConstantOf::Open,
        },
    }
}

// The one value of a list.
fn only_value(alloc: Global, values: Vec<AValue>) -> AValue
    ensures { (d : ℕ) (v : a.AVal) → map (value_at d) values.items ≡ v ∷ [] → value_at d result ≡ v }
{
    let mut values = values;
    match values.pop() {
        Some(v) => v,
        None => AValue {
            base: ABase::Int(0),
            wraps: Vec::new(alloc),
        },
    }
}

// One more node, which names a value, and the place after it, where there are so many type names.
fn declare<'a>(
    node: ANode,
    name: Name<'a>,
    binders: u64,
    progress: &mut Progress<'a>,
) -> Result<(), OutOfMemory>
    requires { name.under ≤ binders }
    ensures { OnOk result (Declares node.form node.values.items (typed binders name.entry)
        (option_map a_value name.entry.constant) name.entry.level binders progress.old.names.items
        progress.old.places.items progress.old.nodes.items progress.new) }
{
    let next = after(name.level)?;
    progress.nodes.push(node)?;
    progress.names.push(name)?;
    let names = progress.names.len();
    progress.places.push(Place {
        depth: next,
        names,
        binders,
    })?;
    Ok(())
}

fn end(form: AForm, values: Vec<AValue>, out: &mut Vec<ANode>) -> Result<(), OutOfMemory>
    ensures { OnOk result (Ends form values.items out.old.items out.new.items) }
{
    out.push(ANode { form, values })?;
    Ok(())
}

fn name<'a>(run: Run<'a>, place: Place, progress: &mut Progress<'a>) -> Result<(), OutOfMemory>
    requires names { length progress.old.names.items ≡ place.names }
    requires bound { Under place.binders progress.old.names.items }
    ensures { OnOk result (Steps place H.Name run.entry progress.old progress.new) }
{
    let Run {
        values,
        types,
        depth,
    } = run;
    let Seen { ty: kind, constant } = only(types);
    let Noted { ty, under } = value_noted(progress.alloc, &progress.names, place.binders, &kind)?;
    let constant = constant_value(progress.alloc, &progress.names, constant)?;
    let values = under_all(progress.alloc, values, depth)?;
    let node = ANode {
        form: AForm::Value,
        values,
    };
    let name = Name {
        level: depth,
        ty,
        under,
        constant,
    };
    declare(node, name, place.binders, progress)?;
    Ok(())
}

fn project<'a>(
    i: u64,
    run: Run<'a>,
    place: Place,
    progress: &mut Progress<'a>,
) -> Result<(), OutOfMemory>
    requires names { length progress.old.names.items ≡ place.names }
    requires bound { Under place.binders progress.old.names.items }
    ensures field { OnOk result (Steps place (H.Proj i) run.entry progress.old progress.new) }
    ensures cell { OnOk result (i ≡ 1 → Steps place H.Get run.entry progress.old progress.new) }
{
    let Run {
        values,
        types,
        depth,
    } = run;
    let whole = only(types).ty;
    let Noted { ty, under } = field_noted(
        progress.alloc,
        &progress.names,
        place.binders,
        &whole,
        i,
    )?;
    let values = under_all(progress.alloc, values, depth)?;
    let node = ANode {
        form: AForm::Proj(i),
        values,
    };
    let name = Name {
        level: depth,
        ty,
        under,
        constant: None,
    };
    declare(node, name, place.binders, progress)?;
    Ok(())
}

fn operate<'a>(
    op: Op,
    run: Run<'a>,
    place: Place,
    progress: &mut Progress<'a>,
) -> Result<(), OutOfMemory>
    requires names { length progress.old.names.items ≡ place.names }
    requires bound { Under place.binders progress.old.names.items }
    ensures { OnOk result (Steps place (H.Arith op) run.entry progress.old progress.new) }
{
    let Run {
        values,
        types: _,
        depth,
    } = run;
    let values = under_all(progress.alloc, values, depth)?;
    let node = ANode {
        form: AForm::Arith(op),
        values,
    };
    let name = Name {
        level: depth,
        ty: Kept::Made(AType::Int),
        under: place.binders,
        constant: None,
    };
    declare(node, name, place.binders, progress)?;
    Ok(())
}

fn unpack<'a>(run: Run<'a>, place: Place, progress: &mut Progress<'a>) -> Result<(), OutOfMemory>
    requires names { length progress.old.names.items ≡ place.names }
    requires bound { Under place.binders progress.old.names.items }
    ensures { OnOk result (Steps place H.Unpack run.entry progress.old progress.new) }
{
    let Run {
        values,
        types,
        depth,
    } = run;
    let inner = after(place.binders)?;
    let whole = only(types).ty;
    let Noted { ty, under } = body_noted(
        progress.alloc,
        &progress.names,
        place.binders,
        &whole,
        inner,
    )?;
    let values = under_all(progress.alloc, values, depth)?;
    let node = ANode {
        form: AForm::Unpack,
        values,
    };
    let name = Name {
        level: depth,
        ty,
        under,
        constant: None,
    };
    declare(node, name, inner, progress)?;
    Ok(())
}

// A tuple of one field of this type; its type once the field is initialised.
fn one_field(alloc: Global, ty: AType, out: &mut Vec<ANode>) -> Result<AType, OutOfMemory>
    ensures ty { IfOk result (λ r. atree r ≡ a.ATuple (a.MoreAFields (atree ty) true a.NoAFields)) }
    ensures emits { OnOk result (Emits out.old.items out.new.items
        (λ r. a.Let (a.Malloc (a.MoreATys (atree ty) a.NoATys)) r)) }
{
    let mut room = Vec::new(alloc);
    room.push(ty)?;
    let cell = flagged_tuple(alloc, &room, true)?;
    malloc(alloc, room, out)?;
    Ok(cell)
}

fn cell<'a>(run: Run<'a>, place: Place, progress: &mut Progress<'a>) -> Result<(), OutOfMemory>
    requires names { length progress.old.names.items ≡ place.names }
    requires bound { Under place.binders progress.old.names.items }
    ensures { OnOk result (Steps place H.Cell run.entry progress.old progress.new) }
{
    let Run {
        values,
        types,
        depth,
    } = run;
    let kind = only(types).ty;
    let ty = own(progress.alloc, &progress.names, place.binders, &kind)?;
    let whole = one_field(progress.alloc, ty, &mut progress.nodes)?;
    let newest = after(depth)?;
    let values = content(progress.alloc, only_value(progress.alloc, values), newest)?;
    let node = ANode {
        form: AForm::Init(1),
        values,
    };
    let name = Name {
        level: newest,
        ty: Kept::Made(whole),
        under: place.binders,
        constant: None,
    };
    declare(node, name, place.binders, progress)?;
    Ok(())
}

// The cell, the first of two values, is set to the second; how many variables there are then.
fn assign(
    alloc: Global,
    values: Vec<AValue>,
    depth: u64,
    out: &mut Vec<ANode>,
) -> Result<u64, OutOfMemory>
    ensures next { IfOk result (λ r. r ≡ suc depth) }
    ensures emits { OnOk result ((v w : a.AVal) → map (value_at depth) values.items ≡ v ∷ w ∷ [] →
        Emits out.old.items out.new.items (λ r. a.Let (a.Init v 1 w) r)) }
{
    let values = under_all(alloc, values, depth)?;
    out.push(ANode {
        form: AForm::Init(1),
        values,
    })?;
    let next = after(depth)?;
    Ok(next)
}

fn set<'a>(run: Run<'a>, place: Place, progress: &mut Progress<'a>) -> Result<(), OutOfMemory>
    requires names { length progress.old.names.items ≡ place.names }
    requires bound { Under place.binders progress.old.names.items }
    ensures { OnOk result (Steps place H.Set run.entry progress.old progress.new) }
{
    let Run {
        values,
        types: _,
        depth,
    } = run;
    let next = assign(progress.alloc, values, depth, &mut progress.nodes)?;
    let room = Vec::new(progress.alloc);
    let none = flagged_tuple(progress.alloc, &room, true)?;
    let empty = Vec::new(progress.alloc);
    let node = ANode {
        form: AForm::Malloc(room),
        values: empty,
    };
    let name = Name {
        level: next,
        ty: Kept::Made(none),
        under: place.binders,
        constant: None,
    };
    declare(node, name, place.binders, progress)?;
    Ok(())
}

fn call(
    types: &Vec<CType>,
    run: Run,
    place: Place,
    progress: &mut Progress,
) -> Result<(), OutOfMemory>
    requires names { length progress.old.names.items ≡ place.names }
    requires bound { Under place.binders progress.old.names.items }
    ensures { OnOk result (Steps place (H.Call types.now) run.entry progress.old progress.new) }
{
    let Run {
        values,
        types: _,
        depth,
    } = run;
    let types = a_types(progress.alloc, types)?;
    let values = under_all(progress.alloc, values, depth)?;
    end(AForm::Call(types), values, &mut progress.nodes)?;
    Ok(())
}

fn choose<'a>(run: Run<'a>, place: Place, progress: &mut Progress<'a>) -> Result<(), OutOfMemory>
    requires names { length progress.old.names.items ≡ place.names }
    requires bound { Under place.binders progress.old.names.items }
    ensures { OnOk result (Steps place H.If0 run.entry progress.old progress.new) }
{
    let Run {
        values,
        types: _,
        depth,
    } = run;
    let branch = Place {
        depth,
        names: place.names,
        binders: place.binders,
    };
    let values = under_all(progress.alloc, values, depth)?;
    end(AForm::If0, values, &mut progress.nodes)?;
    progress.places.push(branch)?;
    progress.places.push(branch)?;
    Ok(())
}

fn halt(run: Run, place: Place, progress: &mut Progress) -> Result<(), OutOfMemory>
    requires names { length progress.old.names.items ≡ place.names }
    requires bound { Under place.binders progress.old.names.items }
    ensures { OnOk result (Steps place H.Halt run.entry progress.old progress.new) }
{
    let Run {
        values,
        types: _,
        depth,
    } = run;
    let values = under_all(progress.alloc, values, depth)?;
    end(AForm::Halt, values, &mut progress.nodes)?;
    Ok(())
}

// What a node of this form does, once its values are read.
fn form<'a>(
    form: &HForm,
    run: Run<'a>,
    place: Place,
    progress: &mut Progress<'a>,
) -> Result<(), OutOfMemory>
    requires names { length progress.old.names.items ≡ place.names }
    requires bound { Under place.binders progress.old.names.items }
    ensures { OnOk result (Steps place form.now run.entry progress.old progress.new) }
{
    match form {
        HForm::Name => Ok(name(run, place, progress)?),
        HForm::Proj(i) => Ok(project(*i, run, place, progress)?),
        HForm::Arith(op) => Ok(operate(*op, run, place, progress)?),
        HForm::Unpack => Ok(unpack(run, place, progress)?),
        HForm::Cell => Ok(cell(run, place, progress)?),
        HForm::Get => Ok(project(1, run, place, progress)?),
        HForm::Set => Ok(set(run, place, progress)?),
        HForm::Call(types) => Ok(call(types, run, place, progress)?),
        HForm::If0 => Ok(choose(run, place, progress)?),
        HForm::Halt => Ok(halt(run, place, progress)?),
    }
}

pub(crate) fn step<'a>(
    blocks: &'a [HBlock],
    node: &'a HNode,
    place: Place,
    progress: &mut Progress<'a>,
    tuples: &mut Vec<AData>,
) -> Result<(), OutOfMemory>
    requires arity { HArity node.now.form (h.values node.now) }
    requires names { length progress.old.names.items ≡ place.names }
    requires bound { Under place.binders progress.old.names.items }
    ensures { OnOk result (Stepped (h_blocks blocks.now) place node.now.form (h.values node.now)
        progress.old.names.items progress.old.places.items progress.old.nodes.items progress.new tuples.old.items
        tuples.new.items) }
{
    let around = Around {
        alloc: progress.alloc,
        blocks,
        names: &progress.names,
        binders: place.binders,
    };
    let run = read(
        &around,
        &node.values,
        place.depth,
        tuples,
        &mut progress.nodes,
    )?;
    form(&node.form, run, place, progress)?;
    Ok(())
}
