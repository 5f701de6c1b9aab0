//! A sink over a writer.
ghost use Rattle.std.specs.Prelude.{◌≡◌, ◌<◌, ◌≤◌, ℕ, List, Option, None, length, is_err, IfOk, OnErr};
ghost use Rattle.gft_io.specs.Outside.{Rose};
ghost use Rattle.gft_io.specs.Host.{faults_after};

use super::RETRIES;
use crate::sink::Sink;
use crate::source::Failed;
use std::io::{self, ErrorKind, Write};
use std::marker::Model;

/// A sink over a writer, as standard output or a file; contracts see how often it failed. It
/// flushes after each write, so that what was written appears.
#[derive(Drop)]
pub struct WriteSink<W: Write> {
    writer: W,
    faults: u64,
}

impl<W: Write> Model for WriteSink<W> {
    ghost use Rattle.std.specs.Prelude.{ℕ};

    ghost Value = { ℕ };

    ghost view = { λ a. a.faults };
}

impl<W: Write> WriteSink<W> {
    /// No write failed.
    pub fn new(writer: W) -> WriteSink<W>
        ensures { result ≡ 0 }
    {
        WriteSink { writer, faults: 0 }
    }
}

/// One write, tried again where a signal cut it short, and a flush. A write of no byte is an error.
fn write_some<W: Write>(writer: &mut W, piece: &[u8]) -> io::Result<usize>
    ensures { IfOk result (λ n. (0 < n) × (n ≤ length piece.now)) }
{
    let count = write_retrying(writer, piece)?;
    if count == 0 {
        return Err(ErrorKind::WriteZero.into());
    }
    writer.flush()?;
    Ok(count)
}

fn write_retrying<W: Write>(writer: &mut W, piece: &[u8]) -> io::Result<usize>
    ensures { IfOk result (λ n. n ≤ length piece.now) }
{
    for _ in 0..RETRIES {
        match writer.write(piece) {
            Err(error) if error.kind() == ErrorKind::Interrupted => {}
            answer => return answer,
        }
    }
    writer.write(piece)
}

impl<W: Write> Sink for WriteSink<W> {
    ghost holds = { λ _. None };

    ghost faults = { λ s. s };

    fn write(&mut self, piece: &[u8]) -> Result<usize, Failed>
        requires { 0 < length piece.now }
        ensures bound { IfOk result (λ n. (0 < n) × (n ≤ length piece.now)) }
        ensures failed { OnErr result (Rose self.old self.new) }
        ensures faults { self.old ≤ self.new }
        ensures counts { self.new ≡ faults_after self.old (is_err result) }
    {
        match write_some(&mut self.writer, piece) {
            Ok(count) => Ok(count),
            Err(_) => {
                self.faults = self.faults.saturating_add(1);
                Err(Failed)
            }
        }
    }
}
