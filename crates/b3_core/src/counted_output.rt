//! The extended output as a reader of bytes.

ghost use Rattle.std.specs.Prelude.{◌≡◌, ℕ, ◌+◌, ◌-◌, ◌^◌, IfOk, Ok, Some, drop, length, min};
ghost use Rattle.std.specs.Io.{ReadsAtMost};
ghost use Rattle.std.specs.Io.KnownBytes.{ReadConsumes};
ghost use Rattle.b3_core.specs.ExtendedOutput.{ModelOutputReader, blocks_touched, output_left};
ghost use Rattle.b3_core.specs.Work.{counted};

use crate::output::OutputReader;
use crate::work::Work;
use std::io::{self, Read};
use std::marker::Model;

/// Reads the extended output as [`std::io::Read`] does, and counts the compressions.
#[derive(Debug, Drop)]
pub struct CountedOutput {
    reader: OutputReader,
    work: Work,
}

impl Model for CountedOutput {
    ghost Value = { ModelOutputReader × ℕ };

    ghost view = { λ b. (b.reader, b.work) };
}

impl CountedOutput {
    /// Reads from the position of `reader`; the compressions are added to `work`.
    pub fn new(reader: OutputReader, work: Work) -> CountedOutput
        ensures { result ≡ (reader, work) }
    {
        CountedOutput { reader, work }
    }

    /// Returns the reader, at the position of the next byte, and the count.
    pub fn into_parts(self) -> (OutputReader, Work)
        ensures reader { result.0 ≡ self.0 }
        ensures work { result.1 ≡ self.1 }
    {
        (self.reader, self.work)
    }
}

impl Read for CountedOutput {
    ghost remaining = { λ b. Some (output_left b.0) };

    /// Fills `buf`, or reads all remaining bytes if they are fewer. It never fails.
    fn read(&mut self, buf: &mut [u8]) -> io::Result<usize>
        ensures read { result ≡ Ok (min (length buf.old) (2 ^ 64 - 1 - self.old.0.position)) }
        ensures bound { ReadsAtMost result buf.new }
        ensures rest { IfOk result (λ n. drop n buf.new ≡ drop n buf.old) }
        ensures bytes { ReadConsumes (Some (output_left self.old.0)) (Some (output_left self.new.0)) result buf.new }
        ensures moved { IfOk result (λ n. self.new.0 ≡ record self.old.0 { position = self.old.0.position + n }) }
        ensures count { IfOk result (λ n. self.new.1 ≡ counted self.old.1 (blocks_touched self.old.0.position n)) }
    {
        let left = u64::MAX - self.reader.position();
        let count = (buf.len() as u64).min(left) as usize;
        let (front, _after) = buf.split_at_mut(count);
        let Ok(()) = self.reader.fill(front, &mut self.work) else {
            unreachable!()
        };
        Ok(count)
    }
}
