//! Code generation from the allocated calculus on plain trees, and what it keeps.
#![tactic(auto)]

ghost use Rattle.t_gen_laws.specs.Layout.{LaidOut};
ghost use Rattle.t_gen_laws.specs.Laws.{TypesKept, PacksFlat, InvariantKept, MeaningKept};
ghost use Rattle.t_gen_laws.specs.Rules.{GeneratedIsByRules, RulesMeanTheSame};
ghost use Rattle.t_gen_laws.specs.TypesEach.{TypesWithin};

/// Block 0 holds the main term; each block has its own, and each `if0` one more for its third part. Each data tuple has
/// its own too.
pub fn programs_are_laid_out()
    ensures { LaidOut }
{}

/// What is generated for a typed program is accepted.
pub fn types_are_kept()
    ensures { TypesKept }
{}

/// What is generated for a typed program has no package inside a package.
pub fn packs_are_flat()
    ensures { PacksFlat }
{}

/// Code generation adds two to the reach of types at most, and keeps the number of type names around a place.
pub fn types_stay_within()
    ensures { TypesWithin }
{}

/// What is generated for a typed program within the bound is well formed.
pub fn invariant_is_kept()
    ensures { InvariantKept }
{}

/// What is generated for a typed program is so by the rules.
pub fn generated_programs_are_by_rules()
    ensures { GeneratedIsByRules }
{}

/// Whatever is so by the rules, is well formed and is accepted means the same as the allocated
/// program, where that is never wrong, both ways, and its machine enters no block more often than the calls of that do.
pub fn rules_mean_the_same()
    ensures { RulesMeanTheSame }
{
    t_rules::erased_runs_are_runs();
    t_rules::erased_runs_halt_alike();
    t_rules::erased_runs_join();
    t_rules::places_run_within_entries();
}

/// So does what is generated for a typed program within the bound.
pub fn meaning_is_kept()
    ensures { MeaningKept }
{
    a_terms::laws::typed_programs_are_never_wrong();
    generated_programs_are_by_rules();
    rules_mean_the_same();
    types_are_kept();
    invariant_is_kept();
}
