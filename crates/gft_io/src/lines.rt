//! The lines of a source, read piece by piece.
ghost use Rattle.std.specs.Prelude.{◌≡◌, ◌≢◌, ◌↔◌, ℕ, ◌+◌, ◌-◌, ◌<◌, ◌≤◌, List, [], ◌∷◌, ◌++◌, length, take, drop, Option, is_some, IsErrOf, IfOk, IfSome, OnOk, OnErr, MatchOption, ◌⊎◌};
ghost use Rattle.gft_io.specs.Outside.{raised, Rose, Told, Same, Gives};
ghost use Rattle.gft_io.specs.Lines.{input_limit, IsLine, HasNoNewline, line_limit};
ghost use Rattle.gft_io.specs.Place.{start, kept, count, Pends, Answers, Advances, KeepsAll, KeepsLittle};
ghost use Rattle.gft_io.specs.Steps.{IsLineEnd, with_ahead, without_line, EndsLine, EndsInput, GoesOn, IsAtEnd, IsLate};

use crate::chunk::Chunk;
use crate::source::{Failed, Source};
use gft_core::NoMemory;
use std::alloc::{AllocError, Global};
use std::marker::Model;
use std::mem;

/// The most bytes of a line, without its newline.
const LINE_LIMIT: u64 = 65_536;

/// The most bytes of a stream of lines.
const INPUT_LIMIT: u64 = 67_108_864;

/// Why there is no next line. `ReadFault`: the source failed; a next call goes on. `InputLimit`:
/// the next line does not end within 67,108,864 bytes; each later call answers this too.
/// `LineTooLong`: it has over 65,536 bytes, and is skipped. After `NoMemory` it is open what is
/// kept.
#[derive(Clone, Copy, Debug, PartialEq, Eq)]
pub enum LineErr {
    ReadFault,
    InputLimit,
    LineTooLong,
    NoMemory,
}

/// A reader of lines. It keeps at most one line and one read; of a line that is too long it keeps
/// only how many bytes it dropped.
#[derive(Drop)]
pub struct Lines {
    passed: u64,
    skipped: u64,
    begun: Vec<u8>,
    ahead: Chunk,
}

impl From<NoMemory> for LineErr {
    ghost use Rattle.std.specs.Prelude.{◌≡◌};
    ghost use Rattle.gft_io.specs.declared.lines.LineErr.TheVariants.{NoMemory};

    ghost from_gives = { λ _ e. e ≡ NoMemory };

    fn from(_error: NoMemory) -> LineErr {
        LineErr::NoMemory
    }
}

impl From<AllocError> for LineErr {
    ghost use Rattle.std.specs.Prelude.{◌≡◌};
    ghost use Rattle.gft_io.specs.declared.lines.LineErr.TheVariants.{NoMemory};

    ghost from_gives = { λ _ e. e ≡ NoMemory };

    fn from(_error: AllocError) -> LineErr {
        LineErr::NoMemory
    }
}

impl Model for Lines {
    ghost use Rattle.std.specs.Prelude.{length};
    ghost use Rattle.gft_io.specs.Place.{Place};
    ghost use Rattle.gft_io.specs.Sound.{IsSound};

    ghost Value = { Place };

    ghost view = { λ a. record {
      passed = a.passed;
      skipped = a.skipped;
      begun = a.begun.items;
      ahead = a.ahead;
    } };

    ghost invariant = { λ a. IsSound a.passed a.skipped a.begun.items (length a.ahead) };
}

impl Lines {
    /// At the start of a stream. It takes the memory for all reads.
    pub fn new(alloc: Global) -> Result<Lines, NoMemory>
        ensures { IfOk result (λ lines. lines ≡ start) }
    {
        let ahead = Chunk::new(alloc)?;
        Ok(Lines {
            passed: 0,
            skipped: 0,
            begun: Vec::new(alloc),
            ahead,
        })
    }

    /// How many bytes were taken.
    fn count(&self) -> u64
        ensures value { result ≡ count self.now }
        ensures passed { self.now.passed ≤ input_limit }
        ensures bound { result ≤ input_limit + 1 }
        ensures late { input_limit < result → IsLate self.now }
        ensures little { KeepsLittle self.now }
    {
        self.passed + self.skipped + self.begun.len() as u64 + self.ahead.bytes().len() as u64
    }

    /// Where the first newline of what was read ahead stands.
    fn newline(&self) -> Option<usize>
        ensures { MatchOption result (HasNoNewline self.now.ahead) (IsLineEnd self.now.ahead) }
    {
        self.ahead.bytes().iter().position(|byte| *byte == b'\n')
    }

    /// Moves what was read ahead to the begun line, or drops both where that is too long.
    fn keep(&mut self) -> Result<(), NoMemory>
        requires line { HasNoNewline self.old.ahead }
        requires room { count self.old ≤ input_limit }
        ensures line { HasNoNewline self.old.begun }
        ensures short { length self.new.begun ≤ line_limit }
        ensures ok { OnOk result
            ((self.new ≡ with_ahead self.old) ⊎ (self.new ≡ without_line self.old)) }
        ensures err { OnErr result (self.new ≡ self.old) }
    {
        let added = self.ahead.bytes();
        let len = self.skipped + self.begun.len() as u64 + added.len() as u64;
        if len > LINE_LIMIT {
            self.skipped = len;
            self.begun.clear();
            self.ahead.clear();
            return Ok(());
        }
        self.begun.extend_from_slice(added)?;
        self.ahead.clear();
        Ok(())
    }

    /// Reads once, and answers how many bytes came.
    fn fill<S: Source>(&mut self, source: &mut S) -> Result<usize, Failed>
        requires empty { self.old.ahead ≡ [] }
        requires room { count self.old ≤ input_limit }
        ensures only { self.new ≡ record self.old { ahead = self.new.ahead } }
        ensures len { IfOk result (λ n. n ≡ length self.new.ahead) }
        ensures gives { OnOk result
            (Told (Gives self.new.ahead) (S.left source.old) (S.left source.new)) }
        ensures keeps { OnErr result (Told Same (S.left source.old) (S.left source.new)) }
        ensures none { OnErr result (self.new.ahead ≡ []) }
        ensures takes { S.taken source.new ≡ raised (S.taken source.old) (length self.new.ahead) }
        ensures failed { OnErr result (Rose (S.faults source.old) (S.faults source.new)) }
        ensures faults { S.faults source.old ≤ S.faults source.new }
        ensures bound { count self.new ≤ input_limit + 1 }
    {
        // The one byte past the limit is read alone.
        let most = (INPUT_LIMIT - self.count()).max(1);
        self.ahead.fill(source, most as usize)?;
        Ok(self.ahead.bytes().len())
    }

    /// The line that ends before the newline at `end` of what was read ahead.
    fn end_line(&mut self, alloc: Global, end: usize) -> Result<Option<Vec<u8>>, LineErr>
        requires newline { IsLineEnd self.old.ahead end }
        requires room { count self.old ≤ input_limit }
        ensures line { HasNoNewline self.old.begun }
        ensures ends { EndsLine self.old self.new end result }
    {
        let len = self.skipped + self.begun.len() as u64 + end as u64;
        if len <= LINE_LIMIT {
            self.begun.extend_from_slice(&self.ahead.bytes()[..end])?;
        }
        self.ahead.consume(end + 1);
        self.passed += len + 1;
        self.skipped = 0;
        let line = mem::replace(&mut self.begun, Vec::new(alloc));
        if len > LINE_LIMIT {
            return Err(LineErr::LineTooLong);
        }
        Ok(Some(line))
    }

    /// The begun line, where the input ends.
    fn last_line(&mut self, alloc: Global) -> Result<Option<Vec<u8>>, LineErr>
        requires empty { self.old.ahead ≡ [] }
        ensures line { HasNoNewline self.old.begun }
        ensures ends { EndsInput self.old self.new result }
    {
        let len = self.skipped + self.begun.len() as u64;
        if len == 0 {
            return Ok(None);
        }
        self.passed += len;
        self.skipped = 0;
        let line = mem::replace(&mut self.begun, Vec::new(alloc));
        if len > LINE_LIMIT {
            return Err(LineErr::LineTooLong);
        }
        Ok(Some(line))
    }

    /// Reads on until what was read ahead has a newline, which it answers, or the input ends.
    fn gather<S: Source>(&mut self, source: &mut S) -> Result<Option<usize>, LineErr>
        ensures goes { GoesOn self.old self.new (S.left source.old) (S.left source.new)
            (S.taken source.old) (S.taken source.new) (S.faults source.old) (S.faults source.new) }
        ensures found { IfOk result (λ found. MatchOption found
            ((self.new.ahead ≡ []) × IsAtEnd (S.left source.new)) (IsLineEnd self.new.ahead)) }
        ensures bound { self.new.passed ≤ input_limit }
        ensures limit { IsErrOf result LineErr.InputLimit ↔ (input_limit < count self.new) }
        ensures most { count self.new ≤ input_limit + 1 }
        ensures late { input_limit < count self.new → IsLate self.new }
        ensures little { KeepsLittle self.new }
        ensures again { input_limit < count self.old
            → (self.new ≡ self.old) × (source.new ≡ source.old) }
        ensures failed { IsErrOf result LineErr.ReadFault
            → Rose (S.faults source.old) (S.faults source.new) × HasNoNewline (kept self.new) }
        ensures short { IsErrOf result LineErr.LineTooLong → ⊥ }
    {
        'reads: loop {
            if self.count() > INPUT_LIMIT {
                return Err(LineErr::InputLimit);
            }
            if let Some(end) = self.newline() {
                return Ok(Some(end));
            }
            self.keep()?;
            match self.fill(source) {
                Ok(0) => return Ok(None),
                Ok(_) => {}
                Err(Failed) => return Err(LineErr::ReadFault),
            }
        }
    }

    /// The next line without its newline, or None at the end of input. Over a whole stream it takes
    /// time in proportion to the bytes.
    pub fn next<S: Source>(
        &mut self,
        alloc: Global,
        source: &mut S,
    ) -> Result<Option<Vec<u8>>, LineErr>
        // Over a source that tells what it has left.
        ensures answers { (bytes : List ℕ) → Pends self.old (S.left source.old) bytes
            → Answers self.old self.new (S.left source.new) bytes result }

        // Over any source.
        ensures told { is_some (S.left source.new) ≡ is_some (S.left source.old) }
        ensures counts { count self.old ≤ count self.new }
        ensures takes { S.taken source.new
            ≡ raised (S.taken source.old) (count self.new - count self.old) }
        ensures faults { S.faults source.old ≤ S.faults source.new }
        ensures line { IfOk result (λ found. IfSome found (λ line. IsLine line.items)) }
        ensures advances { Advances self.old self.new result }
        ensures bound { self.new.passed ≤ input_limit }
        ensures little { KeepsLittle self.new }
        ensures limit { IsErrOf result LineErr.InputLimit ↔ (input_limit < count self.new) }
        ensures again { input_limit < count self.old
            → (self.new ≡ self.old) × (source.new ≡ source.old) }
        ensures failed { IsErrOf result LineErr.ReadFault
            → Rose (S.faults source.old) (S.faults source.new) × KeepsAll self.old self.new }
    {
        match self.gather(source)? {
            Some(end) => self.end_line(alloc, end),
            None => self.last_line(alloc),
        }
    }
}
