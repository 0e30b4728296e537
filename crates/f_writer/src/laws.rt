// What the canonical text of a term stands for, as functions that callers cite.
ghost use Rattle.f_writer.specs.Laws.{StandsForItself, ReadTermsCanBeWritten, WrittenTwiceIsWrittenOnce};
ghost use Rattle.f_writer.specs.Laws.{WrittenTextsAreWithin};

use f_grammar::one_term;

/// The text of a term that can be written stands for the term, places aside.
pub fn texts_stand_for_their_terms()
    ensures { StandsForItself }
{}

/// A term for which a text stands, of no more bytes than a source may have, can be written.
pub fn read_terms_can_be_written()
    ensures { ReadTermsCanBeWritten }
{}

/// A text that is read, written and read again gives the same term, places aside, which is written as the same bytes.
pub fn written_twice_is_written_once()
    ensures { WrittenTwiceIsWrittenOnce }
{
    one_term();
}

/// A text that stands for a term within the limits is written as one that does, where that has no more bytes than a
/// source may have.
pub fn written_texts_are_within()
    ensures { WrittenTextsAreWithin }
{}
