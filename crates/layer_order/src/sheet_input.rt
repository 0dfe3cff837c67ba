//! A style sheet as it is given.

use crate::Origin;
use stylo_base::Text;

/// A style sheet as it is given: where it comes from, whether it takes part, and its text before
/// it is preprocessed.
#[derive(Debug, Drop)]
pub struct SheetInput {
    pub origin: Origin,
    pub enabled: bool,
    pub text: Text,
}
