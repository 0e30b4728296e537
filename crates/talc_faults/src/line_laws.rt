// Laws of the lines, as functions with an empty body that callers cite.
ghost use Rattle.talc_faults.specs.LineLaws.{PathsAreShort};

/// A path takes at most 100 bytes of its line.
pub fn paths_are_short()
    ensures { PathsAreShort }
{}
