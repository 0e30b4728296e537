// The lines of the grammar of terms.
ghost use Rattle.std.specs.Prelude.{◌≡◌};
ghost use Rattle.f_writer.specs.Lines.{strength, is_loose, op_line, right_line, shape_line};

use f_terms::FShape;
use idx_core::Op;

/// The lines of the grammar of terms, from the one that takes every form to the one of forms that never need
/// parentheses: E, S, M, A and P of the grammar. A form is of one line, and where it stands as a part one is asked for.
#[derive(Clone, Copy, Drop)]
pub(crate) enum Line {
    /// Any form: a `fix`, `gen`, `let`, `pack`, `open` or assignment stands bare nowhere else.
    Expression,
    /// Sums and differences.
    Sum,
    /// Products.
    Product,
    /// Calls, and uses at a type.
    Call,
    /// What stands for itself, or ends with a closing sign, or binds closer than a call.
    Primary,
}

// How close the forms of a line bind.
fn strength(line: Line) -> u64
    ensures { result ≡ strength line }
{
    match line {
        Line::Expression => 0,
        Line::Sum => 1,
        Line::Product => 2,
        Line::Call => 3,
        Line::Primary => 4,
    }
}

// Whether a form of a line takes parentheses where a line is asked for.
pub(crate) fn is_loose(line: Line, asked: Line) -> bool
    ensures { result ≡ is_loose line asked }
{
    strength(line) < strength(asked)
}

// The line of an operation, which its left operand is of too.
pub(crate) fn op_line(op: Op) -> Line
    ensures { result ≡ op_line op }
{
    match op {
        Op::Add => Line::Sum,
        Op::Sub => Line::Sum,
        Op::Mul => Line::Product,
    }
}

// The line of the right operand, so that operations group to the left.
pub(crate) fn right_line(op: Op) -> Line
    ensures { result ≡ right_line op }
{
    match op {
        Op::Add => Line::Product,
        Op::Sub => Line::Product,
        Op::Mul => Line::Call,
    }
}

// The line of a form.
pub(crate) fn line_of(shape: &FShape) -> Line
    ensures { result ≡ shape_line shape.now }
{
    match shape {
        FShape::Fix { .. } | FShape::Gen(_) => Line::Expression,
        FShape::Let(_, _) | FShape::Open(_, _) => Line::Expression,
        FShape::Pack { .. } | FShape::Assign(_, _) => Line::Expression,
        FShape::Arith(op, _, _) => op_line(*op),
        FShape::App(_, _) | FShape::Inst(_, _) => Line::Call,
        FShape::Var(_) | FShape::Int(_) | FShape::Tuple(_) => Line::Primary,
        FShape::Proj(_, _) | FShape::If0(_, _, _) => Line::Primary,
        FShape::Ref(_) | FShape::Deref(_) => Line::Primary,
    }
}
