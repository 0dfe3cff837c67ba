//! Tests of which types may cross threads.
#![tactic(auto)]

#[cfg(test)]
mod crossing_threads;
