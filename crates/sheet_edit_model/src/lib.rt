//! Whom edits of style sheets mark. The definitions are in specs/; there is no code here.
#![tactic(auto)]
