//! The extended output of a root (section 2.6).

ghost use Rattle.std.specs.Prelude.{◌≡◌, ◌+◌, ◌-◌, ◌^◌, ◌<◌, ◌↔◌, IsErr, OnOk, OnErr, Some, length};
ghost use Rattle.b3_core.specs.ExtendedOutput.{ModelOutputReader, output_of, blocks_touched};
ghost use Rattle.b3_core.specs.Texts.{output_end_code, output_end_text, reader_text};
ghost use Rattle.b3_core.specs.Work.{counted};

use crate::node::Top;
use crate::work::Work;
use std::error::Error;
use std::fmt;
use std::marker::Model;

/// H1: the requested bytes extend past the 2^64-1 bytes of the output.
#[derive(Clone, Copy, Debug, PartialEq, Eq)]
pub struct OutputEnd;

impl OutputEnd {
    /// The code of the refusal, `H1`.
    pub fn code(self) -> &'static str
        ensures { result.now ≡ output_end_code }
    {
        "H1"
    }
}

/// The code of the refusal and a sentence.
impl fmt::Display for OutputEnd {
    ghost output = { λ _. Some output_end_text };

    fn fmt<W: fmt::Write>(&self, f: &mut fmt::Formatter<W>) -> fmt::Result {
        f.write_str("H1: the output ends at 2^64-1 bytes")
    }
}

impl Error for OutputEnd {}

/// Reads the extended output of a root (section 2.6), 2^64-1 bytes long, from any position.
#[derive(Drop)]
pub struct OutputReader {
    root: Top,
    position: u64,
}

impl Model for OutputReader {
    ghost Value = { ModelOutputReader };

    ghost view = { λ r. record { root = r.root; position = r.position } };
}

impl OutputReader {
    /// A reader of the output of `root`, at position 0.
    pub fn new(root: Top) -> OutputReader
        ensures { result ≡ record { root = root; position = 0 } }
    {
        OutputReader { root, position: 0 }
    }

    /// The position of the next byte, counted from 0.
    pub fn position(&self) -> u64
        ensures { result ≡ self.now.position }
    {
        self.position
    }

    /// Moves to `position`, which may be past the end of the output.
    pub fn set_position(&mut self, position: u64)
        ensures { self.new ≡ record self.old { position = position } }
    {
        self.position = position;
    }

    /// Fills `out` with the next bytes and advances by its length. It makes one compression for each 64-byte block of the output that it
    /// touches.
    ///
    /// Fails with `OutputEnd`, and changes nothing, if the position plus the length of `out` exceeds 2^64-1.
    pub fn fill(&mut self, out: &mut [u8], work: &mut Work) -> Result<(), OutputEnd>
        ensures ends { IsErr result ↔ 2 ^ 64 - 1 < self.old.position + length out.old }
        ensures bytes { OnOk result (out.new ≡ output_of self.old.root self.old.position (length out.old)) }
        ensures moved { OnOk result (self.new ≡ record self.old { position = self.old.position + length out.old }) }
        ensures count { OnOk result (work.new ≡ counted work.old (blocks_touched self.old.position (length out.old))) }
        ensures err { OnErr result ((out.new ≡ out.old) × (self.new ≡ self.old) × (work.new ≡ work.old)) }
    {
        let len = out.len() as u64;
        let start = self.position;
        if len > u64::MAX - start {
            return Err(OutputEnd);
        }
        let root = self.root;
        fill_from(&root, start, out, work);
        self.position = start + len;
        Ok(())
    }
}

/// Shows the position of the next byte, and nothing of the root.
impl fmt::Debug for OutputReader {
    ghost debug_output = { λ reader. Some (reader_text reader) };

    fn fmt<W: fmt::Write>(&self, f: &mut fmt::Formatter<W>) -> fmt::Result {
        let OutputReader { position, .. } = self;
        write!(f, "OutputReader {{ position: {position} }}")
    }
}

// Fills `out` with the bytes of the output starting at `start`.
fn fill_from(root: &Top, start: u64, out: &mut [u8], work: &mut Work)
    requires { start + length out.old < 2 ^ 64 }
    ensures bytes { out.new ≡ output_of root.now start (length out.old) }
    ensures count { work.new ≡ counted work.old (blocks_touched start (length out.old)) }
{
    if out.is_empty() {
        return;
    }
    let first = start / 64;
    let last = (start + (out.len() as u64 - 1)) / 64;
    let mut done = 0;
    // The proof refers to the loop by this label.
    'blocks: for i in first..last + 1 {
        let block = root.output_block(i, work);
        let skip = ((start + done as u64) % 64) as usize;
        let count = (64 - skip).min(out.len() - done);
        out[done..done + count].copy_from_slice(&block[skip..skip + count]);
        done += count;
    }
}
