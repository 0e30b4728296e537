// Laws of the definition of the page.
ghost use Rattle.types_page.specs.Binders.{OneBinding};

/// The forms of a term bind one list of names, with one type each.
pub fn one_binding()
    ensures { OneBinding }
{}
