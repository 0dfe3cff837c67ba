//! What an edit of a document will do.

ghost use Rattle.std.specs.Prelude.{◌≡◌};
ghost use Rattle.edit_model.specs.Edit.{IsShaped};
ghost use Rattle.dom_edits.specs.AcceptedView.{accepted_seen, changes_lists, moved_by};
ghost use Rattle.dom_edits.specs.Plans.{element_taken};

use crate::accepted::Accepted;

/// What an edit of a document will do that nothing refuses. It borrows the edit, and no document.
#[derive(Drop)]
pub struct Planned<'a> {
    pub(crate) accepted: Accepted<'a>,
    /// The last number that there will be.
    pub(crate) last: u32,
    ghost shaped: { ∥ IsShaped (accepted_seen accepted) ∥₁ },
}

impl Planned<'_> {
    /// The last number that will have been given.
    pub fn last(&self) -> u32
        ensures { result ≡ self.now.last }
    {
        self.last
    }

    /// Whether a list of children changes. A move to where the element is changes none.
    pub fn changes_lists(&self) -> bool
        ensures { result ≡ changes_lists self.now.accepted }
    {
        match self.accepted {
            Accepted::Insert { .. } | Accepted::Remove { .. } => true,
            Accepted::Move { still, .. } => !still,
            _ => false,
        }
    }

    /// The element that is taken out, with all that is below it. None: none is.
    pub fn taken(&self) -> Option<u32>
        ensures { result ≡ element_taken (accepted_seen self.now.accepted) }
    {
        match self.accepted {
            Accepted::Remove { x } => Some(x),
            _ => None,
        }
    }

    /// The element that is moved, with all that is below it. None: none is, or it is there already.
    pub fn moved(&self) -> Option<u32>
        ensures { result ≡ moved_by self.now.accepted }
    {
        match self.accepted {
            Accepted::Move { x, still, .. } => { if still { None } else { Some(x) } }
            _ => None,
        }
    }
}
