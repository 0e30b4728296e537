// Type names in scope.
ghost use Rattle.std.specs.Prelude.{◌≡◌, [], ◌∷◌, drop, OnOk, OnErr, Err};
ghost use Rattle.indexmap.specs.IndexMap.{IsEmpty};
ghost use Rattle.t_text.specs.Names.{spelled, bind};
ghost use Rattle.t_reader.specs.Resolve.{IsFound};
ghost use Rattle.idx_core.specs.Levels.{level_of};
ghost use Rattle.t_terms.specs.declared.fault.TFault.TheVariants as fault;

use idx_core::{OutOfMemory, Salt, Span};
use indexmap::IndexMap;
use std::alloc::Global;
use std::marker::Model;
use t_terms::TFault;

/// Values by spellings. Whoever writes a text picks its names, so the hashers read the text before a name.
pub type BySpelling<'a, V> = IndexMap<&'a [u8], V, Salt>;

/// An empty map.
pub fn by_spelling<'a, V>(alloc: Global, salt: Salt) -> BySpelling<'a, V>
    ensures { IsEmpty result }
{
    IndexMap::with_hasher(alloc, salt)
}

/// The type names in scope. Contracts see them as the list of their spellings, innermost first.
#[derive(Drop)]
pub struct Scope<'a> {
    // how many names there were with the innermost of each spelling, or 0 where none is left
    levels: BySpelling<'a, u64>,
    // the names, innermost last, each with what its spelling had before it
    bound: Vec<(&'a [u8], u64)>,
}

impl<'a> Model for Scope<'a> {
    ghost use Rattle.std.specs.Prelude.{ℕ, List, reverse};
    ghost use Rattle.idx_core.specs.Levels.{HasLevels};
    ghost use Rattle.t_reader.specs.Levels.{names_of, KeepsHidden, kept_level};

    ghost Value = { List (List ℕ) };

    ghost view = { λ s. names_of (reverse s.bound.items) };

    ghost invariant = { λ s.
        HasLevels (kept_level s.levels) (names_of (reverse s.bound.items)) × KeepsHidden (reverse s.bound.items) };
}

impl<'a> Scope<'a> {
    /// No names.
    pub fn new(alloc: Global, salt: Salt) -> Scope<'a>
        ensures { result ≡ [] }
    {
        Scope {
            levels: by_spelling(alloc, salt),
            bound: Vec::new(alloc),
        }
    }

    // how many names there were with the innermost of this spelling, or 0 where there is none
    fn level(&self, name: &[u8]) -> u64
        ensures { result ≡ level_of name.now self.now }
    {
        self.levels.get(name).copied().unwrap_or(0)
    }

    /// Makes a name the innermost one. Where memory is wanted, the names are as before.
    pub fn push(&mut self, name: &'a [u8]) -> Result<(), OutOfMemory>
        ensures pushed { OnOk result (self.new ≡ name.now ∷ self.old) }
        ensures kept { OnErr result (self.new ≡ self.old) }
    {
        let hidden = self.level(name);
        self.bound.push((name, hidden))?;
        let level = self.bound.len() as u64;
        match self.levels.insert(name, level) {
            Ok(_) => Ok(()),
            Err(_) => {
                self.bound.pop();
                Err(OutOfMemory)
            }
        }
    }

    /// Takes the innermost name away, which undoes a push. Where there is none, it does nothing.
    pub fn pop(&mut self)
        ensures { self.new ≡ drop 1 self.old }
    {
        if let Some((name, hidden)) = self.bound.pop() {
            if let Some(level) = self.levels.get_mut(name) {
                *level = hidden;
            }
        }
    }

    /// The place of a name in the names in scope, counted from the innermost, or none where it is not there.
    pub fn find(&self, name: &[u8]) -> Option<u64>
        ensures { IsFound name.now self.now result }
    {
        let level = self.level(name);
        if level == 0 {
            return None;
        }
        Some(self.bound.len() as u64 - level)
    }
}

/// The bytes of a text at a place, as far as it has them.
pub fn spelling<'a>(text: &'a [u8], span: Span) -> &'a [u8]
    ensures { result.now ≡ spelled text.now span }
{
    let end = (span.end as usize).min(text.len());
    let start = (span.start as usize).min(end);
    &text[start..end]
}

/// Binds the names at these places in turn, the last innermost.
pub fn bind_all<'a>(text: &'a [u8], names: &[Span], scope: &mut Scope<'a>) -> Result<(), TFault>
    ensures bound { OnOk result (scope.new ≡ bind text.now names.now scope.old) }
    ensures memory { OnErr result (result ≡ Err fault.Memory) }
{
    for name in names {
        scope.push(spelling(text, *name))?;
    }
    Ok(())
}

/// Takes as many of the innermost names away.
pub fn release(count: usize, scope: &mut Scope<'_>)
    ensures { scope.new ≡ drop count scope.old }
{
    for _ in 0..count {
        scope.pop();
    }
}
