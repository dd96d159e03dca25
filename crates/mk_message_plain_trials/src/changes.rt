//! Texts with one byte changed.
use std::alloc::{AllocError, Global};

/// What stands in place of a byte.
pub const BYTES: [u8; 12] = *b" 019\"\\-,:}]\x80";

/// The text with another byte at a place, or with none there.
pub fn changed(
    alloc: Global,
    text: &[u8],
    place: usize,
    byte: Option<u8>,
) -> Result<Vec<u8>, AllocError> {
    let mut out = Vec::new(alloc);
    for (i, kept) in text.iter().enumerate() {
        if i != place {
            out.push(*kept)?;
        } else if let Some(byte) = byte {
            out.push(byte)?;
        }
    }
    Ok(out)
}
