//! What a document is shown on.

/// The size of what a document is shown on, in whole pixels.
#[derive(Clone, Copy, Debug, PartialEq, Eq)]
pub struct Device {
    pub width: u32,
    pub height: u32,
}
