//! What errors of the system are about.
use std::io::{self, ErrorKind};

/// Whether this error, which is dropped here, is want of memory.
pub fn is_want_of_memory(e: io::Error) -> bool {
    e.kind() == ErrorKind::OutOfMemory
}
