//! The definitions of the syntax: tokens, what a text reads as, and the cut into rules and
//! declarations. They stand in specs/; there is no code here.
#![tactic(auto)]
