//! Standard input as a source, and standard output as a sink.
ghost use Rattle.std.specs.Prelude.{◌≡◌, None};

use crate::streams::{ByteSink, ByteSource, Failed};
use std::io::{Read, Stdin, Stdout, Write};

/// The process's standard input. Its content isn't modelled.
#[derive(Drop)]
pub struct StdinSource {
    stdin: Stdin,
    faults: u64,
}

impl StdinSource {
    /// Standard input, from where it stands.
    pub fn new(stdin: Stdin) -> StdinSource
        ensures { ⟦<StdinSource as ByteSource>⟧.faults result ≡ 0 }
    {
        StdinSource { stdin, faults: 0 }
    }
}

impl ByteSource for StdinSource {
    ghost left = { λ _. None };

    ghost faults = { λ s. s.faults };

    fn take(&mut self, into: &mut [u8]) -> Result<usize, Failed> {
        let Ok(count) = self.stdin.read(into) else {
            self.faults = base::one_more(self.faults);
            return Err(Failed);
        };
        Ok(count)
    }
}

/// The process's standard output. Its content isn't modelled.
#[derive(Drop)]
pub struct StdoutSink {
    stdout: Stdout,
    faults: u64,
}

impl StdoutSink {
    /// Standard output, written without a buffer of its own.
    pub fn new(stdout: Stdout) -> StdoutSink
        ensures { ⟦<StdoutSink as ByteSink>⟧.faults result ≡ 0 }
    {
        StdoutSink { stdout, faults: 0 }
    }
}

impl ByteSink for StdoutSink {
    ghost taken = { λ _. None };

    ghost faults = { λ s. s.faults };

    fn put(&mut self, bytes: &[u8]) -> Result<usize, Failed> {
        match self.stdout.write(bytes) {
            Ok(count) if count > 0 => Ok(count),
            _ => {
                self.faults = base::one_more(self.faults);
                Err(Failed)
            }
        }
    }
}
