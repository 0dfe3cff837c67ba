//! Tests of the public calls on selectors.
#![tactic(auto)]

#[cfg(test)]
mod atoms;
#[cfg(test)]
mod lists;
