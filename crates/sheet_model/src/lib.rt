//! The definitions of what is kept of style sheets: selectors and values as they are read from tokens, declarations,
//! rules, and the rules of a document's sheets. They are in specs/; there is no code here.
#![tactic(auto)]
