//! Tests of the filter of ancestor names: names of one slot, counters that come to 255, and walks over documents by
//! chance, in which the filter of each element has the counters of a new one.
#![tactic(auto)]

#[cfg(test)]
mod counters;
#[cfg(test)]
mod documents;
#[cfg(test)]
mod walks;
