// What the definitions of a text's program and first fault say in all.
ghost use Rattle.t_text.specs.Text.{AtMostOneProgram, AtMostOneFault, NoFaultWhereRead, NoProgramWhereFaulty};
ghost use Rattle.t_text.specs.Text.{ProgramOrFault};

/// No text stands for two programs, places included.
pub fn at_most_one_program()
    ensures { AtMostOneProgram }
{}

/// Two first faults of one text are equal.
pub fn at_most_one_fault()
    ensures { AtMostOneFault }
{}

/// A text that stands for a program within the limit on open constructs has no fault.
pub fn no_fault_where_read()
    ensures { NoFaultWhereRead }
{}

/// A text whose first fault is another than the limit on open constructs stands for no program.
pub fn no_program_where_faulty()
    ensures { NoProgramWhereFaulty }
{}

/// Each text stands for a program within the limit on open constructs, or has a first fault.
pub fn program_or_fault()
    ensures { ProgramOrFault }
{}
