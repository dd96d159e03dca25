//! The words of the call.
use mk_base::Mem;
use std::env;
use std::io::{self, ErrorKind};

/// The program's words, without its own name. There are none where one of them is no text in UTF-8, or the system
/// doesn't tell them; `Mem` means want of memory.
pub fn words(rt: &HostRuntime) -> Result<Vec<String>, Mem> {
    match told(rt) {
        Ok(words) => Ok(words),
        Err(e) if e.kind() == ErrorKind::OutOfMemory => Err(Mem),
        Err(_) => Ok(Vec::new(rt.alloc())),
    }
}

// The words as the system tells them.
fn told(rt: &HostRuntime) -> io::Result<Vec<String>> {
    let mut words = Vec::new(rt.alloc());
    for word in env::args(rt)?.skip(1) {
        words.push(word)?;
    }
    Ok(words)
}
