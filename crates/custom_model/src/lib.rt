//! The definitions of custom properties: what a value refers to, how it is expanded, what is on a cycle, and the values
//! that are computed. They are in specs/; there is no code here.
#![tactic(auto)]
