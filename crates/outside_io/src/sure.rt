//! A source and a sink that never fail.

ghost use Rattle.std.specs.Prelude.{◌≡◌, ℕ, ◌+◌, ◌≤◌, List, length, vec_len, None, Some, IsOk};

use crate::{Failed, Sink, Source};

/// A source of bytes in memory that never fails: its count of faults is constant.
#[derive(Drop)]
pub struct SureSource {
    bytes: Vec<u8>,
    at: usize,
    ghost within: { at ≤ vec_len bytes },
}

impl SureSource {
    ghost use Rattle.outside_io.specs.Sure.{sure_left};

    /// A source of these bytes.
    pub fn new(bytes: Vec<u8>) -> SureSource
        ensures { sure_left result ≡ bytes.items }
    {
        SureSource { bytes, at: 0 }
    }
}

impl Source for SureSource {
    ghost use Rattle.std.proofs.Common.{arith};
    ghost use Rattle.outside_io.specs.Sure.{sure_left};

    ghost left = { λ source. Some (sure_left source) };

    ghost faults = { λ _. 0 };

    ghost counted = { λ _. Prim.omega arith };

    fn read(&mut self, buf: &mut [u8]) -> Result<usize, Failed> {
        let count = buf.len().min(self.bytes.len() - self.at);
        buf[..count].copy_from_slice(&self.bytes[self.at..self.at + count]);
        self.at += count;
        Ok(count)
    }
}

/// A sink that never fails: its count of faults is constant. It keeps no bytes, and tells none.
#[derive(Clone, Copy, Debug, PartialEq, Eq)]
pub struct SureSink;

impl SureSink {
    pub fn new() -> SureSink {
        SureSink
    }
}

impl Sink for SureSink {
    ghost use Rattle.std.proofs.Common.{arith};

    ghost taken = { λ _. None };

    ghost faults = { λ _. 0 };

    ghost counted = { λ _. Prim.omega arith };

    fn write_all(&mut self, _bytes: &[u8]) -> Result<(), Failed> {
        Ok(())
    }
}
