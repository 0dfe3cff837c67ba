//! What is true of the tokens of a text, as the contracts of functions that do nothing.

ghost use Rattle.std.specs.Prelude.{◌≡◌, ◌↔◌, List};
ghost use Rattle.base_model.specs.Text.{Characters};
ghost use Rattle.syntax_model.specs.Reading.{Reading};
ghost use Rattle.syntax_model.specs.Spans.{StandInOrder};
ghost use Rattle.syntax_model.specs.Token as model;
ghost use Rattle.syntax_model.specs.TokensIn.{tokens_in};

/// A text reads as its tokens, and as no others.
pub fn reads_as()
    ensures { (text : Characters) (tokens : List model.Token)
        → Reading text tokens ↔ (tokens ≡ tokens_in text) }
{}

/// The texts of the tokens of a reading follow one another in the text, with nothing but comments
/// between them.
pub fn in_order()
    ensures { (text : Characters) (tokens : List model.Token)
        → Reading text tokens → StandInOrder 0 text tokens }
{}
