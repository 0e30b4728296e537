// What no clause says: that the calls on values, instructions and blocks succeed.
ghost use Rattle.std.specs.Prelude.{◌≡◌, pos, [], ◌∷◌, IfOk};
ghost use Rattle.idx_core.specs.Over.{IsWord, PutFitsAt, ShiftFitsAt};
ghost use Rattle.t_types.specs.Read.{tree as type_tree};
ghost use Rattle.t_types.specs.Tree.{ExistsTy, IntTy, VarTy, each};
ghost use Rattle.t_terms.specs.Read.{value as value_tree, instr as instr_tree, end_of as end_tree, spanned};
ghost use Rattle.t_terms.specs.Spanned.{each_spanned};
ghost use Rattle.t_terms.specs.Tree as T;
ghost use Rattle.t_terms.specs.Tree.{each_end, each_instr, each_value};

use idx_core::{OutOfMemory, Scoped, Span};
use std::alloc::Global;
use t_terms::{Base, Block, End, Instr, Value};
use t_types::{RegFile, TType, eq};

fn is_put_under(alloc: Global, block: &Block) -> Result<bool, OutOfMemory>
    requires { each_spanned (PutFitsAt each 0 (VarTy 5)) IsWord 0 (spanned block.now) }
{
    let put = block.put(alloc, 0, &TType::Var(5))?;
    Ok(takes(&put, &TType::Var(7)))
}

fn is_shifted_under(alloc: Global, block: &Block) -> Result<bool, OutOfMemory>
    requires { each_spanned (ShiftFitsAt 3) IsWord 0 (spanned block.now) }
{
    let shifted = block.shift(alloc, 3, 0)?;
    Ok(takes(&shifted, &TType::Var(5)))
}

// unpack[a, r1], r1
fn opened(alloc: Global) -> Instr
    ensures { instr_tree result ≡ T.Unpack 1 (T.Plain (T.Reg 1) []) }
{
    let v = Value::Plain {
        base: Base::Reg(1),
        types: Vec::new(alloc),
    };
    Instr::Unpack { rd: 1, v }
}

// mov r2, L0[t], t being type 2
fn moved(alloc: Global) -> Result<Instr, OutOfMemory>
    ensures { IfOk result (λ i. instr_tree i ≡ T.Mov 2 (T.Plain (T.Label 0) (VarTy 2 ∷ []))) }
{
    let types = vec![in alloc; TType::Var(2)]?;
    let v = Value::Plain {
        base: Base::Label(0),
        types,
    };
    Ok(Instr::Mov { rd: 2, v })
}

// In a block that owes one type, an unpack and then a move that takes type 2: it is the free type 0 of the block.
fn block(alloc: Global) -> Result<Block, OutOfMemory>
    ensures put { IfOk result (λ b. each_spanned (PutFitsAt each 0 (VarTy 5)) IsWord 0 (spanned b)) }
    ensures shift { IfOk result (λ b. each_spanned (ShiftFitsAt 3) IsWord 0 (spanned b)) }
{
    let here = Span { start: 0, end: 0 };
    let moved = moved(alloc)?;
    let body = vec![in alloc; (opened(alloc), here), (moved, here)]?;
    Ok(Block {
        name: here,
        owes: 1,
        regs: RegFile {
            regs: Vec::new(alloc),
        },
        body,
        end: End::Halt,
        end_span: here,
    })
}

#[test]
fn under_unpack(rt: HostRuntime) -> Result<(), OutOfMemory> {
    let block = block(rt.alloc())?;
    assert!(rt; block.below(1) && !block.below(0));
    assert!(rt; is_put_under(rt.alloc(), &block)?);
    assert!(rt; is_shifted_under(rt.alloc(), &block)?);
    Ok(())
}

// Whether the moves of the block take one type, and that is the given one.
fn takes(b: &Block, t: &TType) -> bool {
    let mut seen: u64 = 0;
    for entry in &b.body {
        if let Instr::Mov {
            rd: _,
            v: Value::Plain { base: _, types },
        } = &entry.0
        {
            for u in types {
                if !eq(t, u) {
                    return false;
                }
                seen = seen.saturating_add(1);
            }
        }
    }
    seen == 1
}

// Whether the value is the integer 3.
fn is_three(v: &Value) -> bool {
    match v {
        Value::Plain {
            base: Base::Int(3),
            types,
        } => types.is_empty(),
        _ => false,
    }
}

// Whether the value is `pack[t, 3] as some a. a`.
fn packs_three(v: &Value, t: &TType) -> bool {
    match v {
        Value::Pack {
            hidden,
            inner,
            shape,
        } => eq(hidden, t) && is_three(inner) && hides_itself(shape),
        _ => false,
    }
}

// Whether the type is `some a. a`.
fn hides_itself(shape: &TType) -> bool {
    match shape {
        TType::Exists(body) => eq(body, &TType::Var(0)),
        _ => false,
    }
}

// Whether the instruction moves that to register 1.
fn moves_three(i: &Instr, t: &TType) -> bool {
    match i {
        Instr::Mov { rd: 1, v } => packs_three(v, t),
        _ => false,
    }
}

fn is_value_shifted(alloc: Global, v: &Value) -> Result<bool, OutOfMemory>
    requires { each_value (ShiftFitsAt 2) IsWord 0 (value_tree v.now) }
{
    let shifted = v.shift(alloc, 2, 0)?;
    Ok(packs_three(&shifted, &TType::Var(2)))
}

fn is_value_put(alloc: Global, v: &Value) -> Result<bool, OutOfMemory>
    requires { each_value (PutFitsAt each 0 IntTy) IsWord 0 (value_tree v.now) }
{
    let put = v.put(alloc, 0, &TType::Int)?;
    Ok(put.below(0) && packs_three(&put, &TType::Int))
}

fn is_instr_shifted(alloc: Global, i: &Instr) -> Result<bool, OutOfMemory>
    requires { each_instr (ShiftFitsAt 2) IsWord 0 (instr_tree i.now) }
{
    let shifted = i.shift(alloc, 2, 0)?;
    Ok(shifted.below(3) && !shifted.below(2) && moves_three(&shifted, &TType::Var(2)))
}

fn is_instr_put(alloc: Global, i: &Instr) -> Result<bool, OutOfMemory>
    requires { each_instr (PutFitsAt each 0 IntTy) IsWord 0 (instr_tree i.now) }
{
    let put = i.put(alloc, 0, &TType::Int)?;
    Ok(put.below(0) && moves_three(&put, &TType::Int))
}

// some a. a
fn itself(alloc: Global) -> Result<Box<TType>, OutOfMemory>
    ensures { IfOk result (λ t. type_tree t.value ≡ ExistsTy (VarTy 0)) }
{
    let inside = Box::new(alloc, TType::Var(0))?;
    Ok(Box::new(alloc, TType::Exists(inside))?)
}

fn three(alloc: Global) -> Result<Box<Value>, OutOfMemory>
    ensures { IfOk result (λ v. value_tree v.value ≡ T.Plain (T.Int (pos 3)) []) }
{
    let v = Value::Plain {
        base: Base::Int(3),
        types: Vec::new(alloc),
    };
    Ok(Box::new(alloc, v)?)
}

// A package of the integer 3 hides a type variable.
fn package(alloc: Global) -> Result<Value, OutOfMemory>
    ensures { IfOk result (λ v. value_tree v ≡ T.Pack (VarTy 0) (T.Plain (T.Int (pos 3)) []) (ExistsTy (VarTy 0))) }
{
    let hidden = Box::new(alloc, TType::Var(0))?;
    let inner = three(alloc)?;
    let shape = itself(alloc)?;
    Ok(Value::Pack {
        hidden,
        inner,
        shape,
    })
}

#[test]
fn values(rt: HostRuntime) -> Result<(), OutOfMemory> {
    let v = package(rt.alloc())?;
    assert!(rt; v.below(1) && !v.below(0));
    assert!(rt; is_value_shifted(rt.alloc(), &v)?);
    assert!(rt; is_value_put(rt.alloc(), &v)?);
    Ok(())
}

#[test]
fn instructions(rt: HostRuntime) -> Result<(), OutOfMemory> {
    let v = package(rt.alloc())?;
    let i = Instr::Mov { rd: 1, v };
    assert!(rt; is_instr_shifted(rt.alloc(), &i)?);
    assert!(rt; is_instr_put(rt.alloc(), &i)?);
    Ok(())
}

// Whether the end is `jmp L3[t,u]`.
fn jumps_with(end: &End, t: &TType, u: &TType) -> bool {
    match end {
        End::Jmp(
            Value::Plain {
                base: Base::Label(3),
                types,
            },
        ) => match types.as_slice() {
            [first, second] => eq(first, t) && eq(second, u),
            _ => false,
        },
        _ => false,
    }
}

// jmp L3[t,u], of the types 0 and 1
fn jump(alloc: Global) -> Result<End, OutOfMemory>
    ensures { IfOk result (λ e. end_tree e ≡ T.Jmp (T.Plain (T.Label 3) (VarTy 0 ∷ VarTy 1 ∷ []))) }
{
    let types = vec![in alloc; TType::Var(0), TType::Var(1)]?;
    Ok(End::Jmp(Value::Plain {
        base: Base::Label(3),
        types,
    }))
}

// Whether a put takes the first of the two types that the end has after a shift.
fn is_end_put(alloc: Global, end: &End) -> Result<bool, OutOfMemory>
    requires { each_end (PutFitsAt each 0 IntTy) IsWord 0 (end_tree end.now) }
{
    let put = end.put(alloc, 0, &TType::Int)?;
    Ok(jumps_with(&put, &TType::Int, &TType::Var(2)))
}

fn is_end_shifted(alloc: Global, end: &End) -> Result<bool, OutOfMemory>
    requires { end_tree end.now ≡ T.Jmp (T.Plain (T.Label 3) (VarTy 0 ∷ VarTy 1 ∷ [])) }
{
    let shifted = end.shift(alloc, 2, 1)?;
    if !jumps_with(&shifted, &TType::Var(0), &TType::Var(3)) {
        return Ok(false);
    }
    is_end_put(alloc, &shifted)
}

// The types with which a block ends are shifted and put as those of its instructions.
#[test]
fn ends(rt: HostRuntime) -> Result<(), OutOfMemory> {
    let end = jump(rt.alloc())?;
    assert!(rt; end.below(2) && !end.below(1));
    assert!(rt; is_end_shifted(rt.alloc(), &end)?);
    Ok(())
}
