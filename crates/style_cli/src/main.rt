//! `style run`: reads a job in JSON from standard input, and writes the computed style of every
//! element to standard output. `style gen` makes a large job from a number, and writes the sums of that text.
//!
//! A restyle tells which elements it cascaded (`Session::cascaded`); their kept lines are forgotten, and made again
//! when they are written. That a line which is kept is that of the style which the session keeps (`Serves`) is what
//! `elements.rt` is given and leaves, and edits leave it true.
#![tactic(auto)]

mod batch;
mod beginning;
mod counting;
mod elements;
mod heading;
mod laws;
mod printing;
mod status;
mod summing;
#[cfg(test)]
mod tests;
mod top;

use io_edges::{StdSink, StdSource};
pub use status::Status;
use std::process::ExitCode;
use std::{env, io};
pub use top::run;

/// Makes the real ends, runs over them, and then writes what the output has gathered. Says on
/// standard error what went wrong.
fn main(rt: HostRuntime) -> ExitCode {
    let status = match arguments(&rt) {
        Ok(words) => {
            let mut source = StdSource::new(rt.stdin());
            match StdSink::new(rt.alloc(), rt.stdout()) {
                Ok(mut sink) => {
                    let status = run(&rt, rt.alloc(), words, &mut source, &mut sink);
                    let is_written = sink.finish().is_ok();
                    status.after_the_end(is_written)
                }
                Err(_) => Status::NoMemory,
            }
        }
        Err(status) => status,
    };
    // Where standard error cannot be written, the exit status still tells what happened.
    let _ = status.report(&rt);
    ExitCode::from(status.number())
}

/// The words of the command line. Words that are not UTF-8 are none.
fn arguments(rt: &HostRuntime) -> Result<Vec<String>, Status> {
    match env::args(rt) {
        Ok(args) => args.collect(rt.alloc()).map_err(|_| Status::NoMemory),
        Err(error) if error.kind() == io::ErrorKind::OutOfMemory => Err(Status::NoMemory),
        Err(_) => Err(Status::Usage),
    }
}
