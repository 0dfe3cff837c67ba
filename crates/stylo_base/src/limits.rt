//! The limits of a job, each once in the code.

/// The most bytes of an input.
pub const INPUT_LIMIT: usize = 67_108_864;

/// The most elements of a document.
pub const ELEMENT_LIMIT: usize = 65_536;

/// The most levels of a document, where the root has depth 1.
pub const DEPTH_LIMIT: u32 = 256;

/// The most attributes of an element.
pub const ATTRIBUTE_LIMIT: usize = 64;

/// The most bytes of an attribute's value.
pub const VALUE_LIMIT: usize = 1_048_576;

/// The most bytes of a tag, or of the name of an attribute.
pub const NAME_LIMIT: usize = 256;

/// The most style sheets of a document.
pub const SHEET_LIMIT: usize = 256;

/// The most bytes of a sheet's text.
pub const TEXT_LIMIT: usize = 4_194_304;

/// The most numbers that are ever given to elements, or to sheets.
pub const NUMBER_LIMIT: usize = 4_000_000;

/// The most batches of a job.
pub const BATCH_LIMIT: usize = 10_000;

/// The most pixels of the width of a device, and of its height.
pub const DEVICE_LIMIT: u32 = 1_000_000;
