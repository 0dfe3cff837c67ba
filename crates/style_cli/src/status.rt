//! What the program answers.

ghost use Rattle.std.specs.Prelude.{◌≡◌};
ghost use Rattle.style_cli.specs.Answer.{after_the_end, exit_number};

use std::io;
use stylo_base::{Kind, PathText};

/// How a run ended.
#[derive(Debug, Drop)]
pub enum Status {
    /// All is written.
    Done,
    /// The input could not be read.
    ReadFault,
    /// The words are no command line.
    Usage,
    /// The input is not JSON in UTF-8.
    NotJson,
    /// The JSON value at this pointer is not what a job has there.
    NotAJob(PathText),
    /// A limit, by its kind and number, is passed.
    Limit(Kind, u64),
    /// The output could not be written.
    WriteFault,
    /// There was no memory.
    NoMemory,
}

impl Status {
    /// The exit status of the process.
    pub fn number(&self) -> u8
        ensures { result ≡ exit_number self.now }
    {
        match self {
            Status::Done => 0,
            Status::ReadFault => 1,
            Status::Usage => 2,
            Status::NotJson => 3,
            Status::NotAJob(_) => 4,
            Status::Limit(_, _) => 5,
            Status::WriteFault => 6,
            Status::NoMemory => 7,
        }
    }

    /// The status once all that the output gathered was written, or was not: then Done is a fault of
    /// writing, and every other status stays.
    pub(crate) fn after_the_end(self, is_written: bool) -> Status
        ensures { result ≡ after_the_end is_written self }
    {
        match self {
            Status::Done if !is_written => Status::WriteFault,
            status => status,
        }
    }

    /// Says on standard error what went wrong, in one line, or in two how the program is used. Nothing
    /// at `Done`.
    pub(crate) fn report(&self, rt: &impl Eprint) -> io::Result<()> {
        match self {
            Status::Done => Ok(()),
            Status::ReadFault => eprintln!(rt; "style: cannot read the input"),
            Status::Usage => {
                eprintln!(rt; "usage: style run [--workers N] [--share N]")?;
                eprintln!(rt; "       style gen --seed N --nodes N --batches N [--workers N]")
            }
            Status::NotJson => eprintln!(rt; "style: the input is not JSON"),
            Status::NotAJob(path) => {
                let at = path.as_str();
                eprintln!(rt; "style: not a job at {at}")
            }
            Status::Limit(kind, number) => {
                let name = kind.name();
                eprintln!(rt; "style: limit {name} {number}")
            }
            Status::WriteFault => eprintln!(rt; "style: cannot write the output"),
            Status::NoMemory => eprintln!(rt; "style: no memory"),
        }
    }
}
