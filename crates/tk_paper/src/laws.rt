//! Laws of the definitions: each is the contract of a function that does nothing.
ghost use Rattle.std.specs.Prelude.{◌≡◌, ℕ, List, true};
ghost use Rattle.std.specs.List.{list_all};
ghost use Rattle.tk_paper.specs.Escaping.{escaped, is_plain};

/// No byte of an escaped text is `<`, `>`, `"` or `'`, whatever the text.
pub fn escaped_texts_are_plain()
    ensures { (text : List ℕ) → list_all is_plain (escaped text) ≡ true }
{}
