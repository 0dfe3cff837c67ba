//! The rules of a sheet with the layers that it declares, and the declarations of a block (css-syntax-3, sections 5.3.3
//! and 5.4.1 to 5.4.6; css-cascade-5, section 6.4).
//!
//! Every at-rule but `@layer` is dropped for now.
//!
//! The rules of a sheet are cut in one pass over its tokens, one rule at a time. `RuleReader` is seen as the rule that
//! was read last and the rules that are left; it has a `TokenReader` append each token to the list of `RuleParser` that
//! would keep it, which takes it back where it ends the list. In a prelude and in a block one loop does this up to the
//! next token that may end it: a bracket, and before a block a semicolon. The parser knows what the next rule is in,
//! and keeps a stack of what the layers around it are in: the block of an `@layer` is not read again, its rules are met
//! where they stand. Where nothing of a rule is kept, tokens are passed by their kinds and not made. At the end of the
//! text come the closers of what is open in a rule. The definition closes the list of all tokens first and reads a
//! block as a list of rules of its own; that the walk gives the same is proved.
//!
//! The text of a sheet is there as it was given and, while it is read, as its characters; tokens are there of one rule
//! at a time, in two lists that every rule of the sheet uses again. What is kept of a rule owns what it needs.
#![tactic(auto)]

mod at_rule;
mod declaration;
mod declarations;
mod found;
mod important;
mod layer_names;
mod rule;
mod rule_parser;
mod rule_reader;
mod shallow;
mod sheet;

pub use declarations::declaration_list;
pub use rule::{Context, DeclValue, RawDecl, Rule, RuleKind, SheetEdition, StyleBlock};
pub use rule_reader::RuleReader;
pub use sheet::{edition_rules, sheet_rules};
