//! Tokens: the preprocessing of a text, the tokens that are in it, and a cursor for those who read
//! tokens (css-syntax-3, sections 3 to 5).
//!
//! The tokenizer goes piece by piece. `production_at` names the production of the grammar that fits, mostly by the
//! first character and by four at most; `pieces::scan` finds the piece of that production without taking memory (how
//! long it is, its kind, what the run of its name says, the spelling of its number); a token is made from it with at
//! most one allocation for its name and one for its spelling, and with none where they are short. Names, strings, urls
//! and comments are all runs of units (`text_unit::Grammar`), and one loop finds them (`run::scan_run`): it goes
//! quickly over characters that are units alone (`plain_len`), unit by unit over what is no such character, and says
//! whether the run is just these characters, which are then copied in one go. `TokenReader` reads a text's tokens one
//! by one, and is seen as those that are left: `next` gives the first, `append` puts it at the end of a list, `pass`
//! says only its kind; `tokens` collects them. Most tokens take one look (`quick.rt`): whitespace, the marks that one
//! character tells, and identifiers without escapes; `append` makes these where they stand in the list, and all others
//! by `scan`.
//!
//! Where a list of tokens is cut at semicolons outside brackets, and where tokens are taken one by one from its front,
//! `css_tokens::Cursor` goes over it and is seen as what is left of it: in declarations, at-rules and names of layers
//! (`css_rules`), in compounds, combinators, attribute selectors and An+B (`selector_parser`), and in values
//! (`value_parser`). A reader of what tokens begin with takes the cursor as `&mut` and consumes what it reads; a reader
//! of all of some tokens takes their slice. What is in a bracket that was just opened is a slice that the cursor gives
//! (`inside`). Lists of selectors and of names of layers are cut by `css_tokens::CommaSeparated`, which is seen as the
//! parts that are left. `syntax_model` has the words by which that is said (`TokenKinds`, `Brackets`, `Outside`). Other
//! readers go over slices of tokens by their own steps: the parts of a shorthand in `shorthands`, and the parts of a
//! custom property's value in `PartReader`.
//!
//! The value of a custom property is read once, where its declaration is kept: `PartReader` goes over its tokens step
//! by step (a token, a `var()`, where a fallback begins and ends), with a stack of its own, and says whether it is
//! valid. The same reader then serves the names that a value refers to and the expansion. Such a value is a list of
//! tokens without spans behind one handle, and so is a name; from the sheet to the last descendant they are shared,
//! never copied. A map is a list of entries sorted by name behind one handle. An element whose map comes out equal to
//! its parent's shares that map. The printed text of a map is made once, when the map is, and shared with it. The empty
//! map takes no memory.
//!
//! The spelling of a number in a token has up to five characters in the value itself (`Spelling`), which is of 32
//! bytes, as a text is. Where a token stands is two numbers, and one that is of no text ends before it begins
//! (`Extent`); so a token is of 88 bytes, of which a rule with a long selector list has millions.
#![tactic(auto)]

mod bracket;
pub mod characters;
mod comma_separated;
mod cursor;
mod custom;
mod escape;
mod extent;
mod input;
pub mod laws;
pub mod letters;
mod number;
mod numeric_value;
mod open_brackets;
mod open_stack;
mod pieces;
mod production;
mod quick;
mod run;
mod scan;
mod separator;
mod spelling;
mod text_unit;
mod token;
mod token_kind;
mod token_list;
mod token_reader;
mod tokenizer;
mod trim;
mod url;
mod wide;

pub use bracket::Bracket;
pub use comma_separated::CommaSeparated;
pub use cursor::{Cursor, Part};
pub use custom::{
    CustomEntry, CustomMap, CustomName, CustomValue, NamedEntry, PartReader, PartStep, TOKEN_LIMIT,
    is_custom_name, place_by_name,
};
pub use input::preprocess;
pub use numeric_value::value_of;
pub use open_brackets::OpenBrackets;
pub use separator::Separator;
pub use token::{Span, Token, name_of, spelling_of};
pub use token_kind::TokenKind;
pub use token_list::TokenList;
pub use token_reader::TokenReader;
pub use tokenizer::tokens;
pub use trim::{trimmed, without_white, without_white_end};
pub use wide::{Wide, wide_keyword};
