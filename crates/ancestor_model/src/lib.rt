//! The definitions of ancestor names, of the counters of a filter of names, and of an element with its ancestors. They
//! are in specs/; there is no code here.
#![tactic(auto)]
