//! Tests of the public calls from the layers up to the cascade, and of the printed lines.
#![tactic(auto)]

#[cfg(test)]
mod cascading;
#[cfg(test)]
mod layers;
#[cfg(test)]
mod lines;
#[cfg(test)]
mod shared_custom;
#[cfg(test)]
mod styles;
