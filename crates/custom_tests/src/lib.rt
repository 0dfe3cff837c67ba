//! Tests of the public calls of `custom_properties` and `cycle_search`.
#![tactic(auto)]

#[cfg(test)]
mod cycles;
#[cfg(test)]
mod resolution;
#[cfg(test)]
mod substitution;
