//! The definitions of selectors: selectors as data, where one holds, how specific it is, and its
//! key. They are in specs/; there is no code here.
#![tactic(auto)]
