//! A sink whose bytes are in memory.
ghost use Rattle.std.specs.Prelude.{◌≡◌, ◌<◌, ◌≤◌, ◌↔◌, ◌+◌, ◌++◌, ◌⊎◌, ℕ, List, [], Option, Some, length, take, is_err, IsErr, IfOk, OnErr, MatchResult, Contains};
ghost use Rattle.gft_io.specs.Outside.{Rose, Told, Same, Appends};
ghost use Rattle.gft_io.specs.Memory.{uncalled, after_call};

use super::calls::Calls;
use crate::sink::Sink;
use crate::source::Failed;
use gft_core::NoMemory;
use std::alloc::Global;
use std::marker::Model;

/// A sink that tells what it holds. It has room for a number of bytes, and writing takes no memory.
#[derive(Drop)]
pub struct MemSink {
    bytes: Vec<u8>,
    room: usize,
    calls: Calls,
}

impl Model for MemSink {
    ghost use Rattle.std.specs.Prelude.{◌≤◌, vec_len, vec_capacity};
    ghost use Rattle.gft_io.specs.Memory.{SinkState};

    ghost Value = { SinkState };

    ghost view = { λ a. record { bytes = a.bytes.items; room = a.room; calls = a.calls } };

    ghost invariant = { λ a. (vec_len a.bytes ≤ a.room) × (a.room ≤ vec_capacity a.bytes) };
}

impl MemSink {
    /// An empty sink with the memory for `room` bytes. `failing` has the numbers of the writes that
    /// fail, from 1.
    pub fn new(alloc: Global, room: usize, failing: Vec<u64>) -> Result<MemSink, NoMemory>
        ensures { IfOk result (λ sink.
            sink ≡ record { bytes = []; room = room; calls = uncalled failing.items }) }
    {
        let bytes = Vec::with_capacity(alloc, room)?;
        Ok(MemSink {
            bytes,
            room,
            calls: Calls::new(failing),
        })
    }

    /// What it holds.
    pub fn bytes(&self) -> &Vec<u8>
        ensures { result.now.items ≡ self.now.bytes }
    {
        &self.bytes
    }
}

impl Sink for MemSink {
    ghost holds = { λ s. Some s.bytes };

    ghost faults = { λ s. s.calls.faults };

    /// It takes the whole piece, and fails too where that is longer than the room that is left.
    fn write(&mut self, piece: &[u8]) -> Result<usize, Failed>
        requires { 0 < length piece.now }
        ensures bound { IfOk result (λ n. (0 < n) × (n ≤ length piece.now)) }
        ensures appends { MatchResult result
            (λ n. self.new.bytes ≡ self.old.bytes ++ take n piece.now)
            (λ _. self.new.bytes ≡ self.old.bytes) }
        ensures failed { OnErr result (Rose self.old.calls.faults self.new.calls.faults) }
        ensures faults { self.old.calls.faults ≤ self.new.calls.faults }

        // What a sink need not promise.
        ensures whole { IfOk result (λ n. n ≡ length piece.now) }
        ensures room { self.new.room ≡ self.old.room }
        ensures calls { self.new.calls ≡ after_call self.old.calls (is_err result) }
        ensures fails { IsErr result ↔ (Contains self.old.calls.failing self.new.calls.made
            ⊎ (self.old.room < length self.old.bytes + length piece.now)) }
        ensures unfailing { self.old.calls.failing ≡ []
            → length self.old.bytes + length piece.now ≤ self.old.room
            → self.new.calls.faults ≡ self.old.calls.faults }
    {
        let full = self.room - self.bytes.len() < piece.len();
        if self.calls.call(full) {
            return Err(Failed);
        }
        match self.bytes.extend_from_slice(piece) {
            Ok(()) => Ok(piece.len()),
            Err(_) => unreachable!(),
        }
    }
}
