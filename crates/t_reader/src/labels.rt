// The labels of a text, and the blocks and data tuples that they name.
ghost use Rattle.std.specs.Prelude.{◌≡◌, [], ◌∷◌, ◌++◌, MatchResult};
ghost use Rattle.t_text.specs.Names.{Labels as LabelList, labels_of};
ghost use Rattle.t_terms.specs.declared.fault.TFault.TheVariants as fault;
ghost use Rattle.t_shapes.specs.Raw.{raw_items};
ghost use Rattle.t_reader.specs.Heads.{head_labels};
ghost use Rattle.t_reader.specs.Labelled.{target_base, IsTargetOf, NameTheSame, HasFirsts};

use crate::heads::{Head, heads_of};
use crate::scope::{BySpelling, by_spelling, spelling};
use crate::target::Target;
use idx_core::Salt;
use std::alloc::Global;
use std::hash::{DefaultHasher, Hasher};
use std::marker::Model;
use t_shapes::RawItem;
use t_terms::TFault;

/// The labels of a text. Contracts see them as a list, each with the block or the data tuple that it names.
#[derive(Drop)]
pub struct Labels<'a> {
    // what the first item with each label is
    targets: BySpelling<'a, Target>,
}

impl<'a> Model for Labels<'a> {
    ghost use Rattle.t_text.specs.Names.{Labels as LabelList};
    ghost use Rattle.t_reader.specs.Labelled.{labels_in_map};

    ghost Value = { LabelList };

    ghost view = { λ l. labels_in_map l.targets };
}

impl<'a> Labels<'a> {
    /// The block or the data tuple that this label names, or none where it names none.
    pub fn find(&self, name: &[u8]) -> Option<Target>
        ensures { IsTargetOf name.now self.now result }
    {
        self.targets.get(name).copied()
    }

    /// What the hashers of labels have read before a label.
    pub fn salt(&self) -> Salt {
        *self.targets.hasher()
    }
}

/// The whole text, for the hashers of its labels and names, and of what else is made of it. They begin with one word
/// that hangs on all of it, so that a key is then read word by word (own choice). What it is makes no difference but in
/// time, so nothing is said of it.
pub fn salt_of(text: &[u8]) -> Salt {
    let mut whole = DefaultHasher::new();
    whole.write(text);
    let mut read = DefaultHasher::new();
    read.write_u64(whole.finish());
    Salt { read }
}

// gives a label what it names, unless an item before has the label
fn keep_first<'a>(
    targets: &mut BySpelling<'a, Target>,
    name: &'a [u8],
    target: Target,
) -> Result<(), TFault>
    ensures { MatchResult result
        (λ _. (ls : LabelList) → HasFirsts targets.old ls →
        HasFirsts targets.new (ls ++ (name.now, target_base target) ∷ []))
        (λ e. e ≡ fault.Memory) }
{
    if targets.contains_key(name) {
        return Ok(());
    }
    targets.insert(name, target)?;
    Ok(())
}

/// The labels of items with these heads, each of which names the first item that has it. The blocks count from 0 in
/// text order, and so do the data.
pub fn labels_from<'a>(
    alloc: Global,
    text: &'a [u8],
    heads: &[Head],
    salt: Salt,
) -> Result<Labels<'a>, TFault>
    ensures { MatchResult result
        (λ l. NameTheSame l (head_labels text.now heads.now))
        (λ e. e ≡ fault.Memory) }
{
    let mut targets = by_spelling(alloc, salt);
    let mut blocks = 0u64;
    let mut tuples = 0u64;
    for head in heads {
        match head {
            Head::Block(name) => {
                let target = Target::Block(blocks);
                blocks += 1;
                keep_first(&mut targets, spelling(text, *name), target)?;
            }
            Head::Data(name) => {
                let target = Target::Data(tuples);
                tuples += 1;
                keep_first(&mut targets, spelling(text, *name), target)?;
            }
        }
    }
    Ok(Labels { targets })
}

/// The labels of items, each of which names the first item that has it.
pub fn labels_in<'a>(
    alloc: Global,
    text: &'a [u8],
    items: &[RawItem],
    salt: Salt,
) -> Result<Labels<'a>, TFault>
    ensures { MatchResult result
        (λ l. NameTheSame l (labels_of text.now (raw_items items.now)))
        (λ e. e ≡ fault.Memory) }
{
    let heads = heads_of(alloc, items)?;
    let labels = labels_from(alloc, text, &heads, salt)?;
    Ok(labels)
}
