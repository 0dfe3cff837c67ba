//! The definitions of the document: characters, elements, the list of a job's nodes, the scene and
//! its look-ups. They are in specs/; there is no code here.
#![tactic(auto)]
