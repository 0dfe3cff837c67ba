//! Why an edit or a job is refused: the kinds of limits, and the refusals of an edit.

ghost use Rattle.std.specs.Prelude.{◌≡◌};
ghost use Rattle.stylo_base.specs.KindName.{name_of};

use crate::NoMemory;
use std::fmt;
use thiserror::Error;

/// What a limit counts.
#[derive(Clone, Copy, Debug, PartialEq, Eq)]
pub enum Kind {
    /// The bytes of a job.
    Input,
    /// The elements of a document at once.
    Elements,
    /// The numbers ever given to elements, or to sheets.
    Numbers,
    /// The depth of an element; the root has 1.
    Depth,
    /// The attributes of an element.
    Attributes,
    /// The bytes of an attribute's value.
    Value,
    /// The sheets of a document at once.
    Sheets,
    /// The bytes of a sheet.
    Text,
    /// The batches of a job.
    Batches,
    /// The pixels of the width of a device, or of its height.
    Device,
}

impl Kind {
    /// The word by which the kind is printed.
    pub fn name(self) -> &'static str
        ensures { result.now ≡ name_of self }
    {
        match self {
            Kind::Input => "input",
            Kind::Elements => "elements",
            Kind::Numbers => "numbers",
            Kind::Depth => "depth",
            Kind::Attributes => "attributes",
            Kind::Value => "value",
            Kind::Sheets => "sheets",
            Kind::Text => "text",
            Kind::Batches => "batches",
            Kind::Device => "device",
        }
    }
}

impl fmt::Display for Kind {
    fn fmt<W: fmt::Write>(&self, f: &mut fmt::Formatter<W>) -> fmt::Result {
        f.write_str(self.name())
    }
}

/// Why an edit is refused. A refused edit changes nothing.
#[derive(Clone, Copy, Debug, PartialEq, Eq, Error)]
pub enum EditRefused {
    /// No element has this number.
    #[error("no element has number {0}")]
    UnknownNode(u64),
    /// No sheet has this number.
    #[error("no sheet has number {0}")]
    UnknownSheet(u64),
    /// There is no such place: the root would go or move, an element would be below itself, or an
    /// index is past the end.
    #[error("there is no such place")]
    BadPlace,
    /// The limit of this kind, with its number, would be exceeded.
    #[error("limit {0} of {1} would be passed")]
    Limit(Kind, u64),
    /// There was no memory.
    #[error("no memory")]
    NoMemory,
}

impl From<NoMemory> for EditRefused {
    ghost use Rattle.std.specs.Prelude.{◌≡◌};
    ghost use Rattle.stylo_base.specs.declared.refusal.EditRefused.TheVariants.{NoMemory};

    ghost from_gives = { λ _ e. e ≡ NoMemory };

    fn from(_error: NoMemory) -> EditRefused {
        EditRefused::NoMemory
    }
}
