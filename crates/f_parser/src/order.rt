// In which order names are used.
ghost use Rattle.f_grammar.specs.Text.{UsesInTextOrder};

/// The uses of names in the tree of a text's tokens, from left to right, stand in the order of the text.
pub fn uses_in_text_order()
    ensures { UsesInTextOrder }
{}
