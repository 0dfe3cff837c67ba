//! Tests of the call that tells whom an edit marks, and of edits that are planned. What edits mark, touch and are
//! refused for is tried by `checks/sessions` over the scripts of `checks/data/sessions/`, and by `checks/marked`.
#![tactic(auto)]

#[cfg(test)]
mod marking;
#[cfg(test)]
mod planning;
