//! A source over a reader.
ghost use Rattle.std.specs.Prelude.{◌≡◌, ◌<◌, ◌≤◌, ℕ, List, Option, None, length, is_err, IfOk, OnErr, MatchResult};
ghost use Rattle.gft_io.specs.Outside.{raised, Rose};
ghost use Rattle.gft_io.specs.Host.{faults_after};

use super::RETRIES;
use crate::source::{Failed, Source};
use std::io::{self, ErrorKind, Read};
use std::marker::Model;

/// A source over a reader, as standard input or a file.
#[derive(Drop)]
pub struct ReadSource<R: Read> {
    reader: R,
    taken: u64,
    faults: u64,
}

impl<R: Read> Model for ReadSource<R> {
    ghost use Rattle.gft_io.specs.Host.{ReaderState};

    ghost Value = { ReaderState };

    ghost view = { λ a. record { taken = a.taken; faults = a.faults } };
}

impl<R: Read> ReadSource<R> {
    /// Nothing was taken, and no read failed.
    pub fn new(reader: R) -> ReadSource<R>
        ensures { result ≡ record { taken = 0; faults = 0 } }
    {
        ReadSource {
            reader,
            taken: 0,
            faults: 0,
        }
    }
}

/// One read, tried again where a signal cut it short.
fn read_some<R: Read>(reader: &mut R, buffer: &mut [u8]) -> io::Result<usize>
    ensures { IfOk result (λ n. n ≤ length buffer.new) }
{
    for _ in 0..RETRIES {
        match reader.read(buffer) {
            Err(error) if error.kind() == ErrorKind::Interrupted => {}
            answer => return answer,
        }
    }
    reader.read(buffer)
}

impl<R: Read> Source for ReadSource<R> {
    ghost left = { λ _. None };

    ghost taken = { λ s. s.taken };

    ghost faults = { λ s. s.faults };

    fn read(&mut self, buffer: &mut [u8]) -> Result<usize, Failed>
        requires { 0 < length buffer.old }
        ensures bound { IfOk result (λ n. n ≤ length buffer.new) }
        ensures takes { MatchResult result (λ n. self.new.taken ≡ raised self.old.taken n)
            (λ _. self.new.taken ≡ self.old.taken) }
        ensures failed { OnErr result (Rose self.old.faults self.new.faults) }
        ensures faults { self.old.faults ≤ self.new.faults }
        ensures counts { self.new.faults ≡ faults_after self.old.faults (is_err result) }
    {
        match read_some(&mut self.reader, buffer) {
            Ok(count) => {
                self.taken = self.taken.saturating_add(count as u64);
                Ok(count)
            }
            Err(_) => {
                self.faults = self.faults.saturating_add(1);
                Err(Failed)
            }
        }
    }
}
