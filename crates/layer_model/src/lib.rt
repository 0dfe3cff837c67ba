//! The definitions of cascade layers: what a layer is known by, and the order of layers. They stand in
//! specs/; there is no code here.
#![tactic(auto)]
