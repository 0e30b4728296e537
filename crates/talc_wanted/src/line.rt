// The line on what could stand at a place of a text.
ghost use Rattle.std.specs.Prelude.{◌≡◌, ◌<◌, ◌^◌, ℕ, List, [], ◌∷◌, length, IfOk, OnOk, if◌then◌else◌};
ghost use Rattle.talc_wanted.specs.Owing.{owing, may_finish, from_top};
ghost use Rattle.talc_wanted.specs.Wanted.{heading, takes_some as takes_one, is_told, told_of, told, the_end, lent};
ghost use Rattle.talc_wanted.specs.Wanted.{token_line, end_line, wanted_line};
ghost use Rattle.talc_wanted.specs.Listing.{shown};

use crate::language::{Language, Sym};
use crate::listing::{Listing, is_end, same_place, token_bytes};
use crate::machine::{advance, ends, takes};
use idx_core::{OutOfMemory, Span};
use std::alloc::Global;

// Whether a token of this kind may stand next, where one is given.
fn takes_some<G: Language>(
    owed: &[Sym<G::Class, G::Line>],
    kind: Option<G::Kind>,
    row: &mut Vec<Sym<G::Class, G::Line>>,
) -> Result<bool, OutOfMemory>
    ensures { IfOk result (λ b. b ≡ takes_one (owing G.owes) G.tells (from_top owed.now) kind) }
{
    match kind {
        Some(kind) => {
            let taken = takes::<G>(owed, G::sample(kind), row)?;
            Ok(taken)
        }
        None => Ok(false),
    }
}

// Whether a kind is told: a token of it may stand next, and none of a wider kind.
fn is_told<G: Language>(
    owed: &[Sym<G::Class, G::Line>],
    kind: G::Kind,
    wider: Option<G::Kind>,
    row: &mut Vec<Sym<G::Class, G::Line>>,
) -> Result<bool, OutOfMemory>
    ensures { IfOk result (λ b. b ≡ is_told (owing G.owes) G.tells (from_top owed.now) kind wider) }
{
    let taken = takes::<G>(owed, G::sample(kind), row)?;
    if taken {
        let wide = takes_some::<G>(owed, wider, row)?;
        return Ok(!wide);
    }
    Ok(false)
}

// Puts the words for all of these kinds of tokens that may stand next into a line.
fn put_kinds<G: Language>(
    kinds: &[(G::Kind, Option<G::Kind>, &'static str)],
    line: &mut Listing,
    owed: &[Sym<G::Class, G::Line>],
    row: &mut Vec<Sym<G::Class, G::Line>>,
) -> Result<(), OutOfMemory>
    ensures { OnOk result (
        shown line.new [] ≡ shown line.old (told (owing G.owes) G.tells (from_top owed.now) (lent kinds.now))) }
{
    for one in kinds {
        let told = is_told::<G>(owed, one.0, one.1, row)?;
        if told {
            line.put(one.2)?;
        }
    }
    Ok(())
}

// Puts the words for the end into a line, where all may end.
fn put_end<G: Language>(
    line: &mut Listing,
    owed: &[Sym<G::Class, G::Line>],
) -> Result<(), OutOfMemory>
    ensures { OnOk result ((ws : List (List ℕ)) →
        shown line.new ws ≡ shown line.old (if may_finish G.owes (from_top owed.now) then the_end ∷ ws else ws)) }
{
    if ends::<G>(owed) {
        line.put("the end")?;
        return Ok(());
    }
    Ok(())
}

// The words for all that may stand next.
fn listing_of<G: Language>(
    alloc: Global,
    owed: &[Sym<G::Class, G::Line>],
) -> Result<Listing, OutOfMemory>
    ensures { IfOk result (λ l. shown l [] ≡ heading (told_of (owing G.owes) G.tells (from_top owed.now))) }
{
    let mut row = Vec::new(alloc);
    let mut line = Listing::new(alloc)?;
    put_end::<G>(&mut line, owed)?;
    put_kinds::<G>(G::kinds(), &mut line, owed, &mut row)?;
    Ok(line)
}

// The line of a place, where this token is the first that may not stand.
fn token_line<G: Language>(
    alloc: Global,
    text: &[u8],
    at: Span,
    found: G::Token,
    owed: &[Sym<G::Class, G::Line>],
) -> Result<Vec<u8>, OutOfMemory>
    ensures { IfOk result (λ line.
        line.items ≡ token_line (owing G.owes) G.tells text.now at (from_top owed.now) found) }
{
    if same_place(at, G::place(found)) {
        let line = listing_of::<G>(alloc, owed)?;
        let made = line.before(token_bytes(text, at))?;
        return Ok(made);
    }
    Ok(Vec::new(alloc))
}

// The line of a place, where all tokens may stand.
fn end_line<G: Language>(
    alloc: Global,
    text: &[u8],
    at: Span,
    owed: &[Sym<G::Class, G::Line>],
) -> Result<Vec<u8>, OutOfMemory>
    ensures { IfOk result (λ line. line.items ≡ end_line (owing G.owes) G.tells text.now at (from_top owed.now)) }
{
    if !is_end(text, at) {
        return Ok(Vec::new(alloc));
    }
    if ends::<G>(owed) {
        return Ok(Vec::new(alloc));
    }
    let line = listing_of::<G>(alloc, owed)?;
    let made = line.before_the_end()?;
    Ok(made)
}

/// What could stand at a place of a text of these tokens, in one line of at most 100 bytes without its end, and what
/// stands there (own choice): `wanted one of: in * + -; found ..`. The line is empty where that place is not the first
/// token, or the end, at which the grammar does not go on. An error is want of memory.
pub fn line_of<G: Language>(
    alloc: Global,
    text: &[u8],
    at: Span,
    tokens: &G::Tokens,
) -> Result<Vec<u8>, OutOfMemory>
    requires { length (G.tokens_of tokens.now) < 2 ^ 64 }
    ensures { IfOk result (λ line.
        line.items ≡ wanted_line (owing G.owes) G.tells text.now at (G.tokens_of tokens.now)) }
{
    let mut row = Vec::new(alloc);
    let mut owed = Vec::new(alloc);
    owed.push(Sym::Line(G::first()))?;
    let mut read = 0;
    'walk: loop {
        match G::token(tokens, read) {
            Some(token) => {
                let taken = advance::<G>(&mut owed, token, &mut row)?;
                if !taken {
                    let line = token_line::<G>(alloc, text, at, token, &owed)?;
                    return Ok(line);
                }
                read += 1;
            }
            None => {
                let line = end_line::<G>(alloc, text, at, &owed)?;
                return Ok(line);
            }
        }
    }
}
