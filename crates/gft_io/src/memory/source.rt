//! A source whose bytes are in memory.
ghost use Rattle.std.specs.Prelude.{◌≡◌, ◌<◌, ◌≤◌, ◌↔◌, ℕ, List, [], Option, Some, length, take, min, is_err, IsErr, IfOk, OnErr, MatchResult, Contains};
ghost use Rattle.gft_io.specs.Outside.{raised, Rose, Told, Same, Gives};
ghost use Rattle.gft_io.specs.Memory.{uncalled, after_call};

use super::calls::Calls;
use crate::source::{Failed, Source};
use std::marker::Model;

/// A source that tells what it has left.
#[derive(Drop)]
pub struct MemSource {
    bytes: Vec<u8>,
    at: usize,
    taken: u64,
    calls: Calls,
}

impl Model for MemSource {
    ghost use Rattle.std.specs.Prelude.{◌≤◌, drop, vec_len};
    ghost use Rattle.gft_io.specs.Memory.{SourceState};

    ghost Value = { SourceState };

    ghost view = { λ a. record { left = drop a.at a.bytes.items; taken = a.taken; calls = a.calls } };

    ghost invariant = { λ a. a.at ≤ vec_len a.bytes };
}

impl MemSource {
    /// A source of these bytes. `failing` has the numbers of the reads that fail, from 1.
    pub fn new(bytes: Vec<u8>, failing: Vec<u64>) -> MemSource
        ensures { result ≡ record { left = bytes.items; taken = 0; calls = uncalled failing.items } }
    {
        MemSource {
            bytes,
            at: 0,
            taken: 0,
            calls: Calls::new(failing),
        }
    }
}

impl Source for MemSource {
    ghost left = { λ s. Some s.left };

    ghost taken = { λ s. s.taken };

    ghost faults = { λ s. s.calls.faults };

    /// It gives as many bytes as are left and fit.
    fn read(&mut self, buffer: &mut [u8]) -> Result<usize, Failed>
        requires { 0 < length buffer.old }
        ensures bound { IfOk result (λ n. n ≤ length buffer.new) }
        ensures gives { IfOk result (λ n. Gives (take n buffer.new) self.old.left self.new.left) }
        ensures keeps { OnErr result (self.new.left ≡ self.old.left) }
        ensures takes { MatchResult result (λ n. self.new.taken ≡ raised self.old.taken n)
            (λ _. self.new.taken ≡ self.old.taken) }
        ensures failed { OnErr result (Rose self.old.calls.faults self.new.calls.faults) }
        ensures faults { self.old.calls.faults ≤ self.new.calls.faults }

        // What a source need not promise.
        ensures size { IfOk result (λ n. n ≡ min (length buffer.old) (length self.old.left)) }
        ensures calls { self.new.calls ≡ after_call self.old.calls (is_err result) }
        ensures fails { IsErr result ↔ Contains self.old.calls.failing self.new.calls.made }
        ensures unfailing { self.old.calls.failing ≡ []
            → self.new.calls.faults ≡ self.old.calls.faults }
    {
        if self.calls.call(false) {
            return Err(Failed);
        }
        let left = &self.bytes[self.at..];
        let count = left.len().min(buffer.len());
        buffer[..count].copy_from_slice(&left[..count]);
        self.at += count;
        self.taken = self.taken.saturating_add(count as u64);
        Ok(count)
    }
}
