//! A source and a sink in memory, of which chosen calls fail.

ghost use Rattle.std.specs.Prelude.{◌≡◌, ℕ, ◌+◌, ◌<◌, ◌≤◌, ◌↔◌, List, [], length, take, min, vec_len, vec_capacity, Some, IsTrue, IsErr, IfOk, IfSome, OnErr, OnOk, Contains};
ghost use Rattle.store_spec.specs.Fault.{next_count, CountsFault};
ghost use Rattle.outside_io.specs.Stream.{Gives, TakesAll, TakesSome};

use crate::{Count, Failed, Memory, Sink, Source};
use std::alloc::Global;

fn is_listed(numbers: &[u64], number: u64) -> bool
    ensures { IsTrue result ↔ Contains numbers.now number }
{
    numbers.contains(&number)
}

/// A source of bytes in memory. The calls whose numbers, counted from 1, it is given fail.
#[derive(Drop)]
pub struct MemorySource {
    bytes: Vec<u8>,
    at: usize,
    failing: Vec<u64>,
    calls: Count,
    faults: Count,
    ghost within: { at ≤ vec_len bytes },
}

impl MemorySource {
    ghost use Rattle.outside_io.specs.Memory.{source_left, source_calls, source_failing, source_faults};

    /// A source of these bytes, whose calls with these numbers fail.
    pub fn new(bytes: Vec<u8>, failing: Vec<u64>) -> MemorySource
        ensures left { source_left result ≡ bytes.items }
        ensures failing { source_failing result ≡ failing.items }
        ensures calls { source_calls result ≡ 0 }
        ensures faults { source_faults result ≡ 0 }
    {
        MemorySource {
            bytes,
            at: 0,
            failing,
            calls: Count::zero(),
            faults: Count::zero(),
        }
    }
}

impl Source for MemorySource {
    ghost use Rattle.outside_io.specs.Memory.{source_left, source_calls, source_failing, source_faults};

    ghost left = { λ source. Some (source_left source) };

    ghost faults = { source_faults };

    ghost counted = { λ source. source.faults.within };

    fn read(&mut self, buf: &mut [u8]) -> Result<usize, Failed>
        ensures within { IfOk result
            (λ n. n ≡ min (length buf.old) (length (source_left self.old))) }
        ensures gives { IfOk result (λ n. Gives (Some (source_left self.old)) (take n buf.new)
            (Some (source_left self.new))) }
        ensures unmoved { OnErr result (source_left self.new ≡ source_left self.old) }
        ensures fault { CountsFault result (source_faults self.old) (source_faults self.new) }

        // It fails exactly at the calls that it was told.
        ensures fails { IsErr result
            ↔ Contains (source_failing self.old) (next_count (source_calls self.old)) }
        ensures failing { source_failing self.new ≡ source_failing self.old }
        ensures calls { source_calls self.new ≡ next_count (source_calls self.old) }
    {
        self.calls.add_one();
        if is_listed(&self.failing, self.calls.value()) {
            self.faults.add_one();
            return Err(Failed);
        }
        let count = buf.len().min(self.bytes.len() - self.at);
        buf[..count].copy_from_slice(&self.bytes[self.at..self.at + count]);
        self.at += count;
        Ok(count)
    }
}

/// A sink in memory with room for so many bytes. The calls whose numbers, counted from 1, it is given fail, and so
/// does one for whose bytes there is no room. A call that fails takes nothing.
#[derive(Drop)]
pub struct MemorySink {
    taken: Vec<u8>,
    room: usize,
    failing: Vec<u64>,
    calls: Count,
    faults: Count,
    ghost within: { vec_len taken ≤ room },
    ghost reserved: { room ≤ vec_capacity taken },
}

impl MemorySink {
    ghost use Rattle.outside_io.specs.Memory.{sink_taken, sink_room, sink_calls, sink_failing, sink_faults};

    /// A sink with this room, all of which it takes here.
    pub fn new(alloc: Global, room: usize, failing: Vec<u64>) -> Result<MemorySink, Memory>
        ensures taken { IfOk result (λ sink. sink_taken sink ≡ []) }
        ensures room { IfOk result (λ sink. sink_room sink ≡ room) }
        ensures failing { IfOk result (λ sink. sink_failing sink ≡ failing.items) }
        ensures faults { IfOk result (λ sink. sink_faults sink ≡ 0) }
        ensures calls { IfOk result (λ sink. sink_calls sink ≡ 0) }
    {
        Ok(MemorySink {
            taken: Vec::with_capacity(alloc, room)?,
            room,
            failing,
            calls: Count::zero(),
            faults: Count::zero(),
        })
    }

    /// The bytes that it has taken.
    pub fn bytes(&self) -> &[u8]
        ensures { result.now ≡ sink_taken self.now }
    {
        &self.taken
    }
}

impl Sink for MemorySink {
    ghost use Rattle.outside_io.specs.Memory.{sink_taken, sink_room, sink_calls, sink_failing, sink_faults, IsFailing};

    ghost taken = { λ sink. Some (sink_taken sink) };

    ghost faults = { sink_faults };

    ghost counted = { λ sink. sink.faults.within };

    fn write_all(&mut self, bytes: &[u8]) -> Result<(), Failed>
        ensures all { OnOk result
            (TakesAll (Some (sink_taken self.old)) bytes.now (Some (sink_taken self.new))) }
        ensures none { OnErr result (sink_taken self.new ≡ sink_taken self.old) }
        ensures fault { CountsFault result (sink_faults self.old) (sink_faults self.new) }

        // It fails exactly at the calls that it was told, and where there is no room.
        ensures fails { IsErr result ↔ IsFailing self.old bytes.now }
        ensures room { sink_room self.new ≡ sink_room self.old }
        ensures failing { sink_failing self.new ≡ sink_failing self.old }
        ensures calls { sink_calls self.new ≡ next_count (sink_calls self.old) }
    {
        self.calls.add_one();
        if is_listed(&self.failing, self.calls.value())
            || bytes.len() > self.room - self.taken.len()
        {
            self.faults.add_one();
            return Err(Failed);
        }
        match self.taken.extend_from_slice(bytes) {
            Ok(()) => Ok(()),
            Err(_) => unreachable!(),
        }
    }
}
