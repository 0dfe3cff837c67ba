//! The style of an element, from the declarations that apply to it and the style of its parent.
//!
//! The cascade asks first which declaration of each property wins, in one look at all that apply (`Winners`), which
//! takes no memory. A winner with `var()` is expanded, that of a shorthand once for all its properties. Only where the
//! winner is `revert` or `revert-layer`, or comes to one of these, the declarations of its property are sorted, once,
//! from the greatest down, and walked under a `RollbackBound`: what is asked still (`rolled_back`).
//!
//! A `LentMatched` lends its declaration: from its rule, or from the list that was read from the `style` attribute. A
//! `Matched` may own it, and is kept for longer than that list.
#![tactic(auto)]

mod cascaded_style;
mod cascaded_value;
mod computed;
mod custom;
mod custom_declarations;
mod declarations;
mod gathered;
mod held;
mod level;
mod longhands;
mod matched;
mod names;
mod places;
mod rollback;
mod substituted_shorthand;
mod substituted_value;
mod substitution;
mod winners;

pub use cascaded_style::{CascadedDraft, cascade, cascade_draft};
pub use declarations::Declarations;
pub use held::{HeldDeclaration, Matched};
pub use matched::{CascadePriority, LentMatched};
