// Laws of first differences, as functions with an empty body that callers cite.
ghost use Rattle.type_path.specs.Laws.{SourceFirst, SourceOne, SourceNone, AssemblyFirst, AssemblyNone};
ghost use Rattle.type_path.specs.Laws.{MisfitFirst, MisfitNone, MisfitShown};

/// What is found of two types of the source is where they first differ, and nothing is found of equal types alone.
pub fn source_differences()
    ensures first { SourceFirst }
    ensures one { SourceOne }
    ensures none { SourceNone }
{}

/// What is found of two types of a program of the assembly language is where they first differ, and nothing is found of
/// equal types alone.
pub fn assembly_differences()
    ensures first { AssemblyFirst }
    ensures none { AssemblyNone }
{}

/// What is found of a type where another one is wanted is where it first does not fit, what is asked there is what is
/// wanted there, and nothing is found of types alone that fit.
pub fn assembly_misfits()
    ensures first { MisfitFirst }
    ensures none { MisfitNone }
    ensures shown { MisfitShown }
{}
