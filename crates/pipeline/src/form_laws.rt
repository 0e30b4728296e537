// What the definition of a form's text says in all.
ghost use Rattle.pipeline.specs.Translated.{FormsAreOfTranslations};

use crate::made_programs_are_translations;

/// The text of a form of a program of the source is the notation of the program of that form in a translation of it by
/// the rules of the passes in turn: the one that the passes make.
pub fn forms_are_of_translations()
    ensures { FormsAreOfTranslations }
{
    made_programs_are_translations();
}
