//! What is true of written tokens, as the contracts of functions that do nothing.

ghost use Rattle.std.specs.Prelude.{◌≡◌, ◌||◌, List, Some, map, not, true};
ghost use Rattle.std.specs.FinMap as finmap;
ghost use Rattle.std.specs.List.{list_all};
ghost use Rattle.base_model.specs.Text.{Characters};
ghost use Rattle.custom_model.specs.Computed.{resolved};
ghost use Rattle.custom_model.specs.Cycles.{DeclaredValues};
ghost use Rattle.custom_model.specs.Expand.{Lookup, expansion};
ghost use Rattle.custom_model.specs.Value.{CustomValue, CustomValues, unplaced};
ghost use Rattle.syntax_model.specs.Preprocess.{preprocessed};
ghost use Rattle.syntax_model.specs.Token.{Token, said};
ghost use Rattle.syntax_model.specs.TokensIn.{tokens_in};
ghost use Rattle.syntax_model.specs.Written.{is_bad_string, is_broken, is_clean_token, is_sound, is_writable};
ghost use Rattle.syntax_model.specs.Written.{urls_go_on, written};

/// What is written of a writable list reads, preprocessed like any text, as tokens of the same kinds,
/// names and spellings.
pub fn reads_back()
    ensures { (tokens : List Token) → is_writable tokens ≡ true
        → map said (tokens_in (preprocessed (written tokens))) ≡ map said tokens }
{}

/// So does what is written of a text's tokens, where they are writable.
pub fn text_reads_back()
    ensures { (text : Characters) → is_writable (tokens_in (preprocessed text)) ≡ true
        → map said (tokens_in (preprocessed (written (tokens_in (preprocessed text)))))
        ≡ map said (tokens_in (preprocessed text)) }
{}

/// Each token of a text is sound, but for bad strings, bad urls and a `\` alone.
pub fn tokens_are_sound()
    ensures { (text : Characters)
        → list_all (λ token. is_broken token.kind || is_sound token) (tokens_in text) ≡ true }
{}

/// No token of a text holds U+0000, and none is a delim that preprocessing would change.
pub fn tokens_are_clean()
    ensures { (text : Characters)
        → list_all is_clean_token (tokens_in (preprocessed text)) ≡ true }
{}

/// In a text without bad strings a string follows the function `url`, with whitespace or none
/// between.
pub fn strings_follow_urls()
    ensures { (text : Characters)
        → list_all (λ token. not (is_bad_string token.kind)) (tokens_in text) ≡ true
        → urls_go_on (tokens_in text) ≡ true }
{}

/// What a value expands to is writable, where the value is and those of the custom properties are.
pub fn expansions_are_writable()
    ensures { (values : Lookup)
        → ((name : Characters) (value : CustomValue) → values name ≡ Some value
        → is_writable (map unplaced value) ≡ true)
        → (tokens result : CustomValue) → is_writable (map unplaced tokens) ≡ true
        → expansion values tokens ≡ Some result → is_writable (map unplaced result) ≡ true }
{}

/// So are the values of an element's custom properties, where what is declared and what is inherited
/// is.
pub fn computed_values_are_writable()
    ensures { (declared : DeclaredValues) (inherited : CustomValues)
        → ((name : Characters) (value : CustomValue) → finmap.get declared name ≡ Some (Some value)
        → is_writable (map unplaced value) ≡ true)
        → ((name : Characters) (value : CustomValue) → finmap.get inherited name ≡ Some value
        → is_writable (map unplaced value) ≡ true)
        → (name : Characters) (value : CustomValue)
        → finmap.get (resolved declared inherited) name ≡ Some value
        → is_writable (map unplaced value) ≡ true }
{}
