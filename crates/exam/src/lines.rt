//! The lines of a text, and the items of a list.
use std::alloc::{AllocError, Global};

/// The parts of a text between its LFs.
pub(crate) fn split_lines(heap: Global, text: &[u8]) -> Result<Vec<&[u8]>, AllocError> {
    text.split(|b| *b == b'\n').collect(heap)
}

/// The items of a list that is parted by commas; `-` is an empty list.
pub(crate) fn items(heap: Global, text: &[u8]) -> Result<Vec<&[u8]>, AllocError> {
    if text == b"-".as_slice() {
        return Ok(Vec::new(heap));
    }
    text.split(|b| *b == b',').collect(heap)
}
