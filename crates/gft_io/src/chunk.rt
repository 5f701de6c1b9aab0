//! The bytes of one read.
ghost use Rattle.std.specs.Prelude.{◌≡◌, ◌<◌, ◌≤◌, [], length, take, drop, IfOk, OnOk, OnErr, MatchResult};
ghost use Rattle.gft_io.specs.Outside.{raised, Rose, Told, Same, Gives};

use crate::source::{Failed, Source};
use gft_core::NoMemory;
use std::alloc::Global;
use std::marker::Model;

/// The most bytes of one read.
pub(crate) const CHUNK: usize = 8192;

/// The bytes of the last read that are not consumed yet; contracts see their list.
#[derive(Drop)]
pub(crate) struct Chunk {
    buffer: Vec<u8>,
    start: usize,
    end: usize,
}

impl Model for Chunk {
    ghost use Rattle.std.specs.Prelude.{◌≡◌, ◌≤◌, ◌-◌, List, ℕ, take, drop, vec_len};

    ghost Value = { List ℕ };

    ghost view = { λ c. take (c.end - c.start) (drop c.start c.buffer.items) };

    ghost invariant = { λ c.
        (c.start ≤ c.end) × (c.end ≤ vec_len c.buffer) × (vec_len c.buffer ≡ 8192) };
}

impl Chunk {
    /// An empty chunk. It takes the memory for all reads.
    pub(crate) fn new(alloc: Global) -> Result<Chunk, NoMemory>
        ensures { IfOk result (λ chunk. chunk ≡ []) }
    {
        let buffer = vec![in alloc; 0; CHUNK]?;
        Ok(Chunk {
            buffer,
            start: 0,
            end: 0,
        })
    }

    /// The bytes that are left.
    pub(crate) fn bytes(&self) -> &[u8]
        ensures value { result.now ≡ self.now }
        ensures bound { length self.now ≤ 8192 }
    {
        &self.buffer[self.start..self.end]
    }

    /// Drops the first bytes.
    pub(crate) fn consume(&mut self, count: usize)
        requires { count ≤ length self.old }
        ensures { self.new ≡ drop count self.old }
    {
        self.start += count;
    }

    /// Drops what is left.
    pub(crate) fn clear(&mut self)
        ensures { self.new ≡ [] }
    {
        self.start = self.end;
    }

    /// Drops what is left and takes the bytes of one read, `most` at most.
    pub(crate) fn fill<S: Source>(&mut self, source: &mut S, most: usize) -> Result<(), Failed>
        requires { 0 < most }
        ensures gives { OnOk result (Told (Gives self.new) (S.left source.old) (S.left source.new)) }
        ensures keeps { OnErr result (Told Same (S.left source.old) (S.left source.new)) }
        ensures empty { OnErr result (self.new ≡ []) }
        ensures most { length self.new ≤ most }
        ensures takes { S.taken source.new ≡ raised (S.taken source.old) (length self.new) }
        ensures failed { OnErr result (Rose (S.faults source.old) (S.faults source.new)) }
        ensures faults { S.faults source.old ≤ S.faults source.new }
    {
        self.start = 0;
        self.end = 0;
        self.end = read_front(source, &mut self.buffer, most.min(CHUNK))?;
        Ok(())
    }
}

/// One read into the front of a buffer.
fn read_front<S: Source>(source: &mut S, buffer: &mut [u8], most: usize) -> Result<usize, Failed>
    requires some { 0 < most }
    requires room { most ≤ length buffer.old }
    ensures gives { IfOk result (λ n.
        Told (Gives (take n buffer.new)) (S.left source.old) (S.left source.new)) }
    ensures keeps { OnErr result (Told Same (S.left source.old) (S.left source.new)) }
    ensures most { IfOk result (λ n. n ≤ most) }
    ensures takes { MatchResult result (λ n. S.taken source.new ≡ raised (S.taken source.old) n)
        (λ _. S.taken source.new ≡ S.taken source.old) }
    ensures failed { OnErr result (Rose (S.faults source.old) (S.faults source.new)) }
    ensures faults { S.faults source.old ≤ S.faults source.new }
{
    source.read(&mut buffer[..most])
}
