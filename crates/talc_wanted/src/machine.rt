// The machine over a table, as far as what it owes goes.
ghost use Rattle.std.specs.Prelude.{◌≡◌, IfOk};
ghost use Rattle.std.specs.Option.{is_some};
ghost use Rattle.talc_wanted.specs.Wanted.{lent};
ghost use Rattle.talc_wanted.specs.Owing.{row_in, after_in, after, ends_in, may_end, next_owed, may_finish, from_top};
ghost use Rattle.talc_wanted.specs.Owing.{IsPut, IsRow, IsStep, Advances};

use crate::language::{Language, Row, Sym};
use idx_core::OutOfMemory;

// Puts what the first of these rows for this line and this token owes onto `row`, where there is one.
fn put_row<G: Language>(
    rows: &[Row<G::Kind, G::Class, G::Line>],
    line: G::Line,
    token: G::Token,
    row: &mut Vec<Sym<G::Class, G::Line>>,
) -> Result<bool, OutOfMemory>
    ensures { IfOk result (IsPut (row_in G.owes (lent rows.now) line token) row.old.items row.new.items) }
{
    for one in rows {
        if G::same(one.0, line) && G::starts(one.1, token) {
            row.extend_from_slice(one.2)?;
            return Ok(true);
        }
    }
    Ok(false)
}

// Puts what the line's own row for this token owes onto `row`, where there is one.
fn put_own<G: Language>(
    line: G::Line,
    token: G::Token,
    row: &mut Vec<Sym<G::Class, G::Line>>,
) -> Result<bool, OutOfMemory>
    ensures { IfOk result (IsPut (row_in G.owes G.owes.rows line token) row.old.items row.new.items) }
{
    let own = put_row::<G>(G::rows(), line, token, row)?;
    Ok(own)
}

// What this line, or the one that it goes on as by these, owes after this token is left in `row`, where it begins
// with it.
fn begin_by<G: Language>(
    others: &[Row<G::Line, G::Class, G::Line>],
    line: G::Line,
    token: G::Token,
    row: &mut Vec<Sym<G::Class, G::Line>>,
) -> Result<bool, OutOfMemory>
    ensures { IfOk result (IsRow (after_in G.owes (lent others.now) line token) row.new.items) }
{
    row.truncate(0);
    let mut now = line;
    for one in others {
        if G::same(one.0, now) {
            let own = put_own::<G>(now, token, row)?;
            if own {
                return Ok(true);
            }
            row.extend_from_slice(one.2)?;
            now = one.1;
        }
    }
    let last = put_own::<G>(now, token, row)?;
    Ok(last)
}

// Whether the line may begin with this token: what is owed of it then is left in `row`.
fn begin<G: Language>(
    line: G::Line,
    token: G::Token,
    row: &mut Vec<Sym<G::Class, G::Line>>,
) -> Result<bool, OutOfMemory>
    ensures { IfOk result (IsRow (after G.owes line token) row.new.items) }
{
    let begun = begin_by::<G>(G::others(), line, token, row)?;
    Ok(begun)
}

// Whether the line is one of these.
fn is_among<G: Language>(lines: &[G::Line], line: G::Line) -> bool
    ensures { result ≡ ends_in G.owes lines.now line }
{
    for one in lines {
        if G::same(*one, line) {
            return true;
        }
    }
    false
}

// Whether the line may be of no tokens.
fn may_end<G: Language>(line: G::Line) -> bool
    ensures { result ≡ may_end G.owes line }
{
    is_among::<G>(G::ends(), line)
}

// How many symbols of what is owed, the next last, stay where this token is next: none where it may not stand there.
// What the token's line owes after it is left in `row`.
fn find_next<G: Language>(
    owed: &[Sym<G::Class, G::Line>],
    token: G::Token,
    row: &mut Vec<Sym<G::Class, G::Line>>,
) -> Result<Option<usize>, OutOfMemory>
    ensures { IfOk result (IsStep (next_owed G.owes (from_top owed.now) token) owed.now row.new.items) }
{
    let mut at = owed.len();
    while at > 0 {
        at -= 1;
        match owed[at] {
            Sym::Token(class) => {
                row.truncate(0);
                return if G::fits(class, token) {
                    Ok(Some(at))
                } else {
                    Ok(None)
                };
            }
            Sym::Line(line) => {
                if begin::<G>(line, token, row)? {
                    return Ok(Some(at));
                }
                if !may_end::<G>(line) {
                    return Ok(None);
                }
            }
        }
    }
    Ok(None)
}

/// Whether a token may stand next. `row` is room to work in.
pub(crate) fn takes<G: Language>(
    owed: &[Sym<G::Class, G::Line>],
    token: G::Token,
    row: &mut Vec<Sym<G::Class, G::Line>>,
) -> Result<bool, OutOfMemory>
    ensures { IfOk result (λ b. b ≡ is_some (next_owed G.owes (from_top owed.now) token)) }
{
    let stays = find_next::<G>(owed, token, row)?;
    Ok(stays.is_some())
}

/// Reads a token, where it may stand next. `row` is room to work in.
pub(crate) fn advance<G: Language>(
    owed: &mut Vec<Sym<G::Class, G::Line>>,
    token: G::Token,
    row: &mut Vec<Sym<G::Class, G::Line>>,
) -> Result<bool, OutOfMemory>
    ensures { IfOk result (Advances (next_owed G.owes (from_top owed.old.items) token) owed.old.items owed.new.items) }
{
    match find_next::<G>(owed, token, row)? {
        Some(stays) => {
            owed.truncate(stays);
            owed.extend_from_slice(row)?;
            Ok(true)
        }
        None => Ok(false),
    }
}

/// Whether all may end here.
pub(crate) fn ends<G: Language>(owed: &[Sym<G::Class, G::Line>]) -> bool
    ensures { result ≡ may_finish G.owes (from_top owed.now) }
{
    for sym in owed {
        match sym {
            Sym::Token(_) => return false,
            Sym::Line(line) => {
                if !may_end::<G>(*line) {
                    return false;
                }
            }
        }
    }
    true
}
