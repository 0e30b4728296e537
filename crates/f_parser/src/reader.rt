// From the bytes of a text to its term.
ghost use Rattle.std.specs.Prelude.{◌≡◌, ◌≢◌, ◌≤◌, ◌<◌, [], ◌∷◌, MatchResult, IsErrAnd};
ghost use Rattle.idx_core.specs.declared.span.Span as place;
ghost use Rattle.text_core.specs.Table.{Nt};
ghost use Rattle.f_terms.specs.declared.fault.Code as codes;
ghost use Rattle.f_terms.specs.declared.fault.FFault.TheVariants as fault;
ghost use Rattle.f_terms.specs.Tm.{Tm};
ghost use Rattle.f_terms.specs.ReadTerm.{spanned};
ghost use Rattle.f_terms.specs.declared.fault.Code.TheVariants.{L3};
ghost use Rattle.f_grammar.specs.Raw.{RawTm, nodes, raw_span};
ghost use Rattle.f_grammar.specs.Machine.{LE};
ghost use Rattle.f_grammar.specs.Reads.{Fails};
ghost use Rattle.f_grammar.specs.Term.{tree_of};
ghost use Rattle.f_grammar.specs.ReadsTerms.{Keeps};
ghost use Rattle.f_grammar.specs.Text.{SourceWithin, FirstFault, IsFault, HasTokens, whole_of, end_of};
ghost use Rattle.f_parser.specs.Reader.{HasTree};

use crate::binding::bind;
use crate::resolve::Unresolved;
use f_grammar::{Kept, RawTerm, Stopped, peek, whole_term};
use f_lexer::{Token, tokens};
use f_terms::{Code, FFault, FTerm};
use idx_core::Span;
use std::alloc::Global;

/// How many bytes a text may have.
pub const BYTES: usize = 16_777_216;

fn refused(code: Code, span: Span) -> FFault
    ensures { result ≡ fault.Refused code span }
{
    FFault::Refused { code, span }
}

fn whole(text: &[u8]) -> Span
    ensures { result ≡ whole_of text.now }
{
    Span {
        start: 0,
        end: text.len() as u64,
    }
}

fn end(text: &[u8]) -> Span
    ensures { result ≡ end_of text.now }
{
    let at = text.len() as u64;
    Span { start: at, end: at }
}

// the fault at the token, or the end, at which the reading stopped
fn stopped_fault(text: &[u8], tokens: &[Token], stopped: Stopped) -> FFault
    requires tokens { HasTokens text.now tokens.now }
    requires stopped { Fails tokens.now 0 0 (Nt LE ∷ []) [] stopped }
    ensures { IsFault text.now result }
{
    match stopped {
        Stopped::Memory => FFault::Memory,
        Stopped::Unexpected(at) => match peek(tokens, at) {
            Some(token) => refused(Code::E03, token.span),
            None => refused(Code::E04, end(text)),
        },
        Stopped::TooDeep(at) => match peek(tokens, at) {
            Some(token) => refused(Code::L2, token.span),
            None => unreachable!(),
        },
    }
}

// the tree, or the fault where it has too many nodes
fn kept_tree(kept: Kept) -> Result<RawTerm, FFault>
    ensures { (t : RawTm) → Keeps kept t → MatchResult result (λ e. (tree_of e ≡ t) × (nodes t ≤ 100000))
        (λ f. (f ≡ fault.Refused L3 (raw_span t)) × (100000 < nodes t)) }
{
    match kept {
        Kept::Term(tree) => Ok(tree),
        Kept::TooMany(span) => Err(refused(Code::L3, span)),
    }
}

// the tree of all tokens, its names not yet bound
fn whole_tree(alloc: Global, text: &[u8], tokens: &[Token]) -> Result<RawTerm, FFault>
    requires { HasTokens text.now tokens.now }
    ensures { MatchResult result (λ t. HasTree text.now (tree_of t)) (λ f. IsFault text.now f) }
{
    match whole_term(alloc, tokens) {
        Ok(found) => match peek(tokens, found.next) {
            Some(token) => Err(refused(Code::E03, token.span)),
            None => kept_tree(found.kept),
        },
        Err(stopped) => Err(stopped_fault(text, tokens, stopped)),
    }
}

// the term of the tree, where no name is in scope around it
fn closed_term(alloc: Global, text: &[u8], tree: &RawTerm) -> Result<FTerm, FFault>
    requires { HasTree text.now (tree_of tree.now) }
    ensures { MatchResult result (λ e. SourceWithin text.now (spanned e)) (λ f. IsFault text.now f) }
{
    match bind(alloc, text, tree) {
        Ok(term) => Ok(term),
        Err(Unresolved::Memory) => Err(FFault::Memory),
        Err(Unresolved::Value(span)) => Err(refused(Code::E05, span)),
        Err(Unresolved::Type(span)) => Err(refused(Code::E06, span)),
    }
}

/// The term that a text stands for, by the grammar and the binding rules of the source, within the limits L1 to L3.
/// Else the first fault of the text, in this order: L1 over the whole of it, the first of E01 and E02, whichever of
/// E03, E04 and L2 comes first by tokens, L3 over the whole expression, the first of E05 and E06 (order and limits
/// are an own choice). Places are counted in bytes.
pub fn parse(alloc: Global, text: &[u8]) -> Result<FTerm, FFault>
    ensures right { MatchResult result (λ e. SourceWithin text.now (spanned e)) (λ f. IsFault text.now f) }
    ensures term { (tm : Tm) → SourceWithin text.now tm → MatchResult result (λ e. spanned e ≡ tm)
        (λ f. f ≡ fault.Memory) }
    ensures refused { (code : codes.Code) (span : place.Span) → FirstFault text.now code span → IsErrAnd result
        (λ f. f ≢ fault.Memory → f ≡ fault.Refused code span) }
{
    if text.len() > BYTES {
        return Err(refused(Code::L1, whole(text)));
    }
    let tokens = tokens(alloc, text)?;
    let tree = whole_tree(alloc, text, &tokens)?;
    let term = closed_term(alloc, text, &tree)?;
    Ok(term)
}
