//! The definitions of twins, and of a share of styles that are kept for them. They are in specs/; there is no code
//! here.
#![tactic(auto)]
