//! The style sheets of a document: the rules, layers and declarations of them that are kept.
//!
//! `Sheets` has the rules of all enabled sheets in one list, beside it the selectors of each rule, the rank of each
//! rule's layer and the position of each rule's sheet, so that matching looks nothing up; and the sheets themselves
//! with their texts. A disabled sheet keeps its own rules apart.
//!
//! An edit of sheets is planned first, with all memory that it takes (`Sheets::plan`): only its own text is read, its
//! keys are listed, and where a layer comes or goes the order of layers is made anew. Then it marks, and then it is
//! made (`Sheets::commit`), without any memory: rules are moved, never copied, each a handle with its selectors and its
//! rank, and the positions of their sheets, a list of their own, are written in one pass. With it a session drops what
//! it made of the sheets: what marks elements is made again by the next edit of the document, what styling needs by the
//! next restyle.
#![tactic(auto)]

mod copied;
mod count;
mod declared;
mod keep;
mod kept_layers;
mod kept_sheet;
pub mod laws;
mod list_parts;
mod longhands;
mod moving;
mod parse_block;
mod planning;
mod positions;
mod ranks;
mod referring;
mod refused;
mod room;
mod rule_collector;
mod sheet_edits;
mod sheet_keys;
mod sheet_plan;
mod sheet_rule;
mod sheet_step;
mod sheets;
mod stepping;
mod taking_in;

pub use kept_sheet::KeptSheet;
pub use layer_order::SheetInput;
pub use parse_block::parse_style;
pub use sheet_plan::SheetPlan;
pub use sheet_rule::SheetRule;
pub use sheets::Sheets;
pub use shorthands::Declared;
