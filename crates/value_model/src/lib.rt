//! The definitions of properties: colours, values, the table of properties, and styles. They are
//! in specs/; there is no code here.
#![tactic(auto)]
