//! Tests of the public calls of stylo_base, io_edges, dom_tree, json_reader and job_json, with ample memory.
#![tactic(auto)]

#[cfg(test)]
mod documents;
#[cfg(test)]
mod ends;
#[cfg(test)]
mod errors;
#[cfg(test)]
mod growing;
#[cfg(test)]
mod jobs;
#[cfg(test)]
mod readings;
#[cfg(test)]
mod texts;
