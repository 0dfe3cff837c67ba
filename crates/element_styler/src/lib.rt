//! The style of one element, over that of its parent.
//!
//! The rules that match an element are found by the map of their selectors (`find`): in the buckets that the element
//! looks at, each selector that the filter of its ancestors lets through is tried. What is found is sorted by rule, and
//! of several selectors of one rule the greatest specificity counts (`matching_rules`). It is asked then whether the
//! same rules matched an element with the same `style` attribute before, beneath a parent from which the same is
//! inherited (`MatchedRulesCache`): then its style is known, and nothing is parsed or cascaded. An element may take
//! more of its parent's style than what is inherited; what is known of such a one holds beneath that very style alone.
//!
//! What follows from the sheets alone is made once and only lent (`Prepared`); what changes from element to element,
//! and lends nothing, is a `Styler`; that the two belong to these sheets and to this size of the root is one word
//! (`Fits`). A `Styler` has the ancestors of the element that is matched, with a filter of their names (`Above`), which
//! go with one document (`Follows`): each pass over a document begins with `Styler::begin`, which forgets them, and
//! says whether they are kept at all. Where they aren't, the filter stands for any ancestors.
//!
//! `match_element` tells what applies to an element to who has no styler.
#![tactic(auto)]

mod above;
mod cache;
mod finder;
mod matched_rules;
mod matching;
mod prepared;
mod style_attribute;
mod styler;

pub use matching::match_element;
pub use prepared::{Inputs, Prepared};
pub use styler::{RootStyle, Styler};
