//! Tests that cross libraries: what is kept of sheets, and the style of every element.
#![tactic(auto)]

#[cfg(test)]
mod by_chance;
#[cfg(test)]
mod calling;
#[cfg(test)]
mod sheets;
#[cfg(test)]
mod styles;
