//! What the program reads from.
ghost use Rattle.std.specs.Prelude.{None};
ghost use Rattle.program_files.specs.Faults.{faults_of};

use http_wire::{ByteSource, Failed, FileSource, MemorySource, StdinSource};

/// Where the program reads from: a file, bytes that were read from a file before, or standard input. It isn't modelled.
#[derive(Drop)]
pub enum Input {
    File(FileSource),
    Read(MemorySource),
    Stdin(StdinSource),
}

impl ByteSource for Input {
    ghost left = { λ _. None };

    ghost faults = { faults_of };

    fn take(&mut self, into: &mut [u8]) -> Result<usize, Failed> {
        match self {
            Input::File(file) => file.take(into),
            Input::Read(bytes) => bytes.take(into),
            Input::Stdin(stdin) => stdin.take(into),
        }
    }
}
