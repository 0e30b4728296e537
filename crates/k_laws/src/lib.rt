//! Laws of conversion to continuation-passing style.
#![tactic(auto)]

ghost use Rattle.k_laws.specs.Correct.{KeepsMeaning, KeepsTypes, KeepsReach, IsTranslated, CpsKeepsMeaning};
ghost use Rattle.k_laws.specs.Correct.{CpsKeepsTypes, CpsKeepsReach, SizeIs, CpsFits, CpsKeepsBound, OneConversion};
ghost use Rattle.k_laws.specs.Sites.{CodesAreSites};

use f_terms::programs_are_never_stuck;

/// Every translation keeps the meaning.
pub fn meaning_is_kept()
    ensures { KeepsMeaning }
{
    programs_are_never_stuck();
}

/// Every translation is typed, with all types in scope.
pub fn types_are_kept()
    ensures { KeepsTypes }
{}

/// The types in a translation nest as deep as those of the source allow.
pub fn reach_is_kept()
    ensures { KeepsReach }
{}

/// The conversion of a program is a translation.
pub fn conversion_is_a_translation()
    ensures { IsTranslated }
{}

/// The conversion keeps the meaning.
pub fn conversion_keeps_meaning()
    ensures { CpsKeepsMeaning }
{
    programs_are_never_stuck();
}

/// The conversion is typed.
pub fn conversion_keeps_types()
    ensures { CpsKeepsTypes }
{}

/// The types of the conversion are within bounds.
pub fn conversion_keeps_reach()
    ensures { CpsKeepsReach }
{}

/// How many codes the conversion has.
pub fn codes_of_a_conversion()
    ensures { CodesAreSites }
{}

/// How large the conversion is.
pub fn size_of_a_conversion()
    ensures { SizeIs }
{}

/// The conversion is within bounds that grow with the source.
pub fn conversion_fits()
    ensures { CpsFits }
{}

/// The conversion of a program keeps the bound of programs.
pub fn conversion_keeps_the_bound()
    ensures { CpsKeepsBound }
{}

/// Where types stand beside a program that are its own, the conversion reads them as the program's.
pub fn one_conversion()
    ensures { OneConversion }
{}
