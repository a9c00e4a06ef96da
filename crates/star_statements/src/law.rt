// A law about the statements of every text.

ghost use Rattle.std.specs.{Prelude.◌≡◌, Prelude.ℕ, Prelude.List, List.concat};
ghost use Rattle.star_statements.specs.Statements.{statements_of};

/// States that the statements of a text, joined in order, are the text.
pub fn statements_are_the_text()
    ensures { (text : List ℕ) → concat (statements_of text) ≡ text }
{}
