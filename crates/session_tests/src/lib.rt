//! Tests of sessions: what edits and restyles answer, one of each kind, and what a host knows of them by contracts
//! alone. What edits and restyles count, and the styles that are kept after them, is tried by `checks/sessions` over
//! the scripts of `checks/data/sessions/`.
#![tactic(auto)]

#[cfg(test)]
mod calling;
#[cfg(test)]
mod counting;
pub mod known;
