// Laws about what is compiled.
ghost use Rattle.pipeline.specs.ByRules.{TranslationsMeanTheSame};
ghost use Rattle.pipeline.specs.OneProgram.{MadeIsTranslated, OneClosedTerm, OneProgram, OneProgramWithin};

/// A term is compiled to one program: whatever it is compiled to is the same.
pub fn one_source_gives_one_program()
    ensures { OneProgram }
{}

/// The same within each bound on registers.
pub fn one_source_gives_one_program_within()
    ensures { OneProgramWithin }
{}

/// Whatever a term is a translation to by the rules, of one converted term there is one closed term.
pub fn one_source_gives_one_closed_term()
    ensures { OneClosedTerm }
{}

/// Whatever is a translation of a term by the rules of the passes, is well formed and is accepted means the same as the
/// term, and no place of it is executed more often than once more than the term takes turns: who reads the rules needs
/// no function of a pass for that.
pub fn translations_mean_the_same()
    ensures { TranslationsMeanTheSame }
{
    k_laws::meaning_is_kept();
    k_laws::types_are_kept();
    c_laws::laws::scope_law();
    c_laws::laws::translation_law();
    c_laws::laws::meaning_law();
    c_laws::laws::types_law();
    h_pass::laws::hoisted_means_the_same_law();
    h_terms::laws::h_never_stuck_law();
    a_laws::standing_means_the_same();
    t_gen_laws::rules_mean_the_same();
    t_rules::erased_code_stands_at_its_place();
    t_rules::runs_stay_within_times();
}

/// The program that the passes make of a program of the source is a translation of it by the rules, and its forms on
/// the way are those that the functions of the passes give.
pub fn made_programs_are_translations()
    ensures { MadeIsTranslated }
{
    k_laws::conversion_is_a_translation();
    k_laws::conversion_keeps_types();
    c_laws::laws::scope_law();
    c_laws::laws::translation_law();
    c_laws::laws::types_law();
    h_pass::laws::hoist_is_back_law();
    h_pass::laws::hoist_types_law();
    a_laws::allocation_stands_for_its_program();
    a_laws::types_are_kept();
    t_gen_laws::generated_programs_are_by_rules();
}
