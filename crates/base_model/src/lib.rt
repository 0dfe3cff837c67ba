//! The definitions that every other one builds on: texts, numbers of characters, lists, limits, fixed-point numbers,
//! specificities, origins, style sheets, states and devices. They are in specs/; there is no code here.
#![tactic(auto)]
