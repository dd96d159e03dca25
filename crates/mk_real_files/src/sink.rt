//! The standard streams.
ghost use Rattle.std.specs.Prelude.{◌≡◌};

use crate::writing::put;
use mk_outside::{Sink, Wrote};
use std::io::{self, Print, Stderr, Stdout, Write};

// Which of them it is.
#[derive(Clone, Copy)]
enum Stream {
    Output(Stdout),
    Error(Stderr),
}

/// A standard stream. It tells nothing of what it took, and counts the calls that answer `Failed` in its faults, and
/// those that answer `Mem` in its shortages.
#[derive(Drop)]
pub struct RealSink {
    stream: Stream,
    faults: u64,
    shortages: u64,
}

impl RealSink {
    /// Standard error where `to_error` is true, else standard output.
    pub fn new(rt: &HostRuntime, to_error: bool) -> RealSink
        ensures faults { result.faults ≡ 0 }
        ensures shortages { result.shortages ≡ 0 }
    {
        let stream = if to_error {
            Stream::Error(rt.stderr())
        } else {
            Stream::Output(rt.stdout())
        };
        RealSink {
            stream,
            faults: 0,
            shortages: 0,
        }
    }
}

impl Sink for RealSink {
    ghost use Rattle.std.specs.Prelude.{None};

    ghost faults = { λ k. k.faults };

    ghost shortages = { λ k. k.shortages };

    ghost written = { λ _. None };

    fn put(&mut self, bytes: &[u8]) -> Wrote {
        put(
            &mut self.stream,
            bytes,
            &mut self.faults,
            &mut self.shortages,
        )
    }
}

impl Write for Stream {
    fn write(&mut self, bytes: &[u8]) -> io::Result<usize> {
        match self {
            Stream::Output(stream) => stream.write_some(bytes),
            Stream::Error(stream) => stream.write_some(bytes),
        }
    }

    fn flush(&mut self) -> io::Result<()> {
        Ok(())
    }
}
