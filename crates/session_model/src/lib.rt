//! A document with its sheets, what edits have marked and made fresh since the last restyle, and the styles that are
//! kept.
#![tactic(auto)]
