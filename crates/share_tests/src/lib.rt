//! Tests of shares of styles: who is served by whose entry, which entry goes, and which rules let a share serve.
#![tactic(auto)]

#[cfg(test)]
mod documents;
#[cfg(test)]
mod entries;
#[cfg(test)]
mod rules;
#[cfg(test)]
mod twins;
