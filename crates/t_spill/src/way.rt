// What becomes of the word that an instruction computes.
ghost use Rattle.std.specs.Prelude.{◌≡◌};
ghost use Rattle.t_terms.specs.Read.{instr as instr_tree};
ghost use Rattle.t_spill_rules.specs.Spill.{defines, stores_by};
ghost use Rattle.t_spill.specs.Ways.{way_tree, way_by, way_when};

use t_spill_code::Split;
use t_terms::Instr;

// Where so many slots are filled, a new frame is made.
const MOST_SLOTS: usize = 1000;

/// It stays in its register, it is held where it was computed, it goes into the next slot, or into a new frame.
#[derive(Clone, Copy)]
pub enum Way {
    Stays,
    Holds,
    Fills,
    Gathers,
}

/// The register that an instruction gives a word; 0 where it gives none.
pub fn defined(i: &Instr) -> u64
    ensures { result ≡ defines (instr_tree i.now) }
{
    match i {
        Instr::Arith { rd, .. } => *rd,
        Instr::Bnz { .. } => 0,
        Instr::Ld { rd, .. } => *rd,
        Instr::Malloc { rd, .. } => *rd,
        Instr::Mov { rd, .. } => *rd,
        Instr::St { rd, .. } => *rd,
        Instr::Unpack { rd, .. } => *rd,
    }
}

/// Whether an instruction stores into the tuple of a register.
pub fn stores_into(i: &Instr, rd: u64) -> bool
    ensures { result ≡ stores_by rd (instr_tree i.now) }
{
    match i {
        Instr::Arith { .. } => false,
        Instr::Bnz { .. } => false,
        Instr::Ld { .. } => false,
        Instr::Malloc { .. } => false,
        Instr::Mov { .. } => false,
        Instr::St { rd: r, .. } => *r == rd,
        Instr::Unpack { .. } => false,
    }
}

fn way_of(split: Split, used: usize, rd: u64, stored: bool) -> Way
    ensures { way_tree result ≡ way_by split.low used rd stored }
{
    if split.low < rd {
        if used < MOST_SLOTS {
            if stored { Way::Holds } else { Way::Fills }
        } else {
            Way::Gathers
        }
    } else {
        Way::Stays
    }
}

/// What becomes of the word of an instruction, where so many slots are filled; `stored` says whether the next one
/// stores into its tuple.
pub fn decide(split: Split, used: usize, i: &Instr, stored: bool) -> Way
    ensures { way_tree result ≡ way_when split.low used (instr_tree i.now) stored }
{
    match i {
        Instr::Arith { rd, .. } => way_of(split, used, *rd, stored),
        Instr::Bnz { .. } => Way::Stays,
        Instr::Ld { rd, .. } => way_of(split, used, *rd, stored),
        Instr::Malloc { rd, .. } => way_of(split, used, *rd, stored),
        Instr::Mov { rd, .. } => way_of(split, used, *rd, stored),
        Instr::St { rd, .. } => way_of(split, used, *rd, stored),
        Instr::Unpack { .. } => Way::Gathers,
    }
}
