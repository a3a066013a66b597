// Builds long texts.
use std::alloc::{AllocError, Global};

// A beginning, and then a comment that makes it so many bytes long.
pub(crate) fn padded(heap: Global, beginning: &str, length: usize) -> Result<String, AllocError> {
    let begun = format!(in heap; "{beginning}c ")?;
    let rest = "x".repeat(heap, length.saturating_sub(begun.len()))?;
    format!(in heap; "{begun}{rest}")
}
