//! An open file, or standard input.
ghost use Rattle.n2kdec.specs.System.Reader.{of_either};

use n2k_run::{Failed, Source, StdSource};
use std::io::{Error, Read};

/// An open file, or standard input.
#[derive(Drop)]
pub enum Reader<F, I> {
    /// A file.
    File(F),
    /// Standard input.
    Input(I),
}

impl<F: Read, I: Read> Reader<StdSource<F>, StdSource<I>> {
    ghost use Rattle.std.specs.Prelude.{◌≡◌};
    ghost use Rattle.n2k_run.specs.Device.{IsWhy};

    /// The error of the last call that failed.
    pub fn failure(&self) -> Option<Error>
        ensures last { result ≡ ⟦<Reader<StdSource<F>, StdSource<I>> as Source>⟧.why self.now }
        ensures told { IsWhy (⟦<Reader<StdSource<F>, StdSource<I>> as Source>⟧.failed_calls self.now) result }
    {
        match self {
            Reader::File(file) => file.failure(),
            Reader::Input(input) => input.failure(),
        }
    }
}

impl<F: Source, I: Source> Source for Reader<F, I> {
    ghost calls = { of_either F.calls I.calls };

    ghost failed_calls = { of_either F.failed_calls I.failed_calls };

    ghost why = { of_either F.why I.why };

    ghost remaining = { of_either F.remaining I.remaining };

    fn read(&mut self, buffer: &mut [u8]) -> Result<usize, Failed> {
        match self {
            Reader::File(file) => file.read(buffer),
            Reader::Input(input) => input.read(buffer),
        }
    }
}
