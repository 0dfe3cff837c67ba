//! The definitions of the cascade: which declarations apply to an element, which of them wins, and
//! what the style of each element is. They are in specs/; there is no code here.
#![tactic(auto)]
