//! Tests of the public calls of `css_tokens`, `css_writer` and `css_rules`.
#![tactic(auto)]

#[cfg(test)]
mod cursor;
#[cfg(test)]
mod custom;
#[cfg(test)]
mod rules;
#[cfg(test)]
mod tokenizing;
#[cfg(test)]
mod writer;
