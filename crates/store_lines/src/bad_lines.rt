//! Lines that are outside the grammar of scripts.

ghost use Rattle.std.specs.Prelude.{◌≡◌, ℕ, Some};
ghost use Rattle.edge.specs.Fields.{split_at};
ghost use Rattle.store_lines.specs.Grammar.{line_fault, word_of};
ghost use Rattle.store_lines.specs.Texts.{line_fault_text};
ghost use Rattle.store_lines.specs.declared.bad_lines.LineFault.{LineFault as Fault};

use edge::split_at;
use std::fmt;

/// Why a line is outside the grammar.
#[derive(Clone, Copy, Debug, PartialEq, Eq)]
pub enum LineFault {
    /// Its first word is none of a script.
    UnknownCommand,
    /// A field is missing, wrong or extra.
    BadFields,
}

impl fmt::Display for LineFault {
    ghost output = { λ fault. Some (line_fault_text fault) };

    fn fmt<W: fmt::Write>(&self, f: &mut fmt::Formatter<W>) -> fmt::Result {
        match self {
            LineFault::UnknownCommand => write!(f, "unknown command"),
            LineFault::BadFields => write!(f, "a field is missing, wrong or extra"),
        }
    }
}

/// What is told of the lines of a script that are outside the grammar.
pub trait BadLines {
    // Whether a call in the state before, with this number and fault, may leave the state after. If nothing can be said, as for a stream, it
    // is `λ _ _ _ _. Unit {0}`.
    ghost tells: { Self → ℕ → Fault → Self → Type 0 };

    /// The line with this number, the first being 1, is outside the grammar.
    fn tell(&mut self, number: u64, fault: LineFault)
        ensures { tells self.old number fault self.new };
}

/// It ignores what it is told.
#[derive(Clone, Copy, Debug)]
pub struct Untold;

impl BadLines for Untold {
    ghost tells = { λ old number fault new. new ≡ old };

    fn tell(&mut self, _number: u64, _fault: LineFault) {}
}

// The words of lines.
const WORDS: [&[u8]; 15] = [
    b"tenant", b"limit", b"begin", b"open", b"fix", b"seal", b"sealas", b"abort", b"forget",
    b"fetch", b"usage", b"list", b"journal", b"put", b"stat",
];

/// Why a line that has no request is outside the grammar.
#[tactic(auto, unfolding(crate::specs::Grammar::word_fault))]
pub(crate) fn line_fault(line: &[u8]) -> LineFault
    ensures { result ≡ line_fault line.now }
{
    if WORDS.contains(&first_word(line)) {
        LineFault::BadFields
    } else {
        LineFault::UnknownCommand
    }
}

fn first_word(line: &[u8]) -> &[u8]
    ensures { result.now ≡ word_of line.now (split_at 32 line.now) }
{
    match split_at(line, b' ') {
        Some((word, _)) => word,
        None => line,
    }
}
