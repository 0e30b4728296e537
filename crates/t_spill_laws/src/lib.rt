//! The bound on registers.
#![tactic(auto)]

ghost use Rattle.std.specs.Prelude.{ℕ, ◌+◌, ◌≤◌};
ghost use Rattle.t_terms.specs.Nesting.{nesting};
ghost use Rattle.t_terms.specs.Flat.{Flat};
ghost use Rattle.t_spill_laws.specs.Reach.{reach};
ghost use Rattle.t_terms.specs.Tree.{TProg};
ghost use Rattle.t_terms.specs.Whole.{WellFormedProgram};
ghost use Rattle.t_rules.specs.Rules.{Accepted};
ghost use Rattle.t_spill_rules.specs.Spill.{spilled, TypesFew};
ghost use Rattle.t_spill_laws.specs.Bound.{RegistersUpTo};
ghost use Rattle.t_spill_laws.specs.Bounded.{Spills};
ghost use Rattle.t_spill_laws.specs.Laws.{SpilledRunSeldom, TypesAreTold, FilesAreTold};
ghost use Rattle.t_spill_laws.specs.Correct.{HaltsAlike, CountsKept, origin};

/// What is spilled of an accepted program is accepted.
pub fn types_are_kept()
    ensures { (k : ℕ) (P : TProg) → 8 ≤ k → WellFormedProgram P → Accepted P → Accepted (spilled k P) }
{}

/// It is well formed, where the types of the program have not too many names.
pub fn programs_are_whole()
    ensures { (k : ℕ) (P : TProg) → 8 ≤ k → WellFormedProgram P → Accepted P → TypesFew P →
        WellFormedProgram (spilled k P) }
{}

/// It has no register above k.
pub fn registers_are_few()
    ensures { (k : ℕ) → 8 ≤ k → (P : TProg) → RegistersUpTo k (spilled k P) }
{}

/// It halts with the same integers, and never in fewer instructions.
pub fn meaning_is_kept()
    ensures { (k : ℕ) (P : TProg) → 8 ≤ k → WellFormedProgram P → Accepted P → TypesFew P →
        HaltsAlike P (spilled k P) }
{}

/// Each place comes from a place, and is executed no more often than that is the place of a state.
pub fn counts_are_kept()
    ensures { (k : ℕ) (P : TProg) → 8 ≤ k → WellFormedProgram P → Accepted P → TypesFew P →
        CountsKept P (spilled k P) (origin k P) }
{}

/// Where no pack stands inside a pack, its text has hardly more constructs open than the program's types reach.
pub fn reach_is_kept()
    ensures { (k : ℕ) (P : TProg) → 8 ≤ k → WellFormedProgram P → Accepted P → Flat P →
        nesting (spilled k P) ≤ reach P + 20 }
{}

/// The whole theorem.
pub fn registers_are_bounded()
    ensures { (k : ℕ) (P : TProg) → 8 ≤ k → WellFormedProgram P → Accepted P → TypesFew P →
        Spills k P (spilled k P) (origin k P) }
{}

/// A program that has no register above k may stay as it is.
pub fn few_registers_may_stay()
    ensures { (k : ℕ) (P : TProg) → WellFormedProgram P → Accepted P → RegistersUpTo k P → Spills k P P (λ p. p) }
{}

/// Where counts are kept and no block of the program is entered more than n times, no place is executed more often.
pub fn places_run_seldom()
    ensures { SpilledRunSeldom }
{}

/// The types and files by which the bound is computed are those of the typing rules.
pub fn types_are_told()
    ensures types { TypesAreTold }
    ensures files { FilesAreTold }
{}
