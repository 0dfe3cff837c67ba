//! Tests of rule maps: candidates by every kind of key, names of one key, rules by chance beside a plain look at each
//! selector, and how many a map may have of everything.
#![tactic(auto)]

#[cfg(test)]
mod by_chance;
#[cfg(test)]
mod documents;
#[cfg(test)]
mod many;
#[cfg(test)]
mod rows;
#[cfg(test)]
mod rules;
