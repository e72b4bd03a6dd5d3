//! Why lines were refused, on standard error: of at most ten lines, and then how many more there were.

use crate::standard::StandardError;
use b3_check::{NameFault, Names, NumberedLine};
use std::fmt;
use std::sync::atomic::{AtomicU64, Ordering};
use store_command_line::Input;
use store_lines::{BadLines, LineFault};

// The maximum number of lines that are explained.
const MAX_EXPLAINED: u64 = 10;

/// The refused lines of an input. The first ten are explained.
#[derive(Drop)]
pub(crate) struct Refusals<'a> {
    errors: StandardError<'a>,
    input: Input<'a>,
    lines: AtomicU64,
    count: AtomicU64,
}

impl<'a> Refusals<'a> {
    /// The refused lines of this input.
    pub(crate) fn new(errors: StandardError<'a>, input: Input<'a>) -> Refusals<'a> {
        Refusals {
            errors,
            input,
            lines: AtomicU64::new(0),
            count: AtomicU64::new(0),
        }
    }

    // The name of the input.
    fn name(&self) -> &'a str {
        match self.input {
            Input::Standard => "standard input",
            Input::File(path) => path,
        }
    }

    /// Whether the input is standard input.
    pub(crate) fn is_standard(&self) -> bool {
        matches!(self.input, Input::Standard)
    }

    /// Where they are explained.
    pub(crate) fn errors(&self) -> StandardError<'a> {
        self.errors
    }

    // Explains a line or an entry, unless ten were explained already.
    fn explain<D: fmt::Display>(&self, kind: &str, number: u64, reason: &D) {
        if self.count.fetch_add(1, Ordering::Relaxed) >= MAX_EXPLAINED {
            return;
        }
        let input = self.name();
        let _ = eprintln!(self.errors.cleared(); "b3store: {input}: {kind} {number}: {reason}");
    }

    /// Reports that a list has no line at all.
    pub(crate) fn finish_list(&self) {
        if self.lines.load(Ordering::Relaxed) == 0 {
            let input = self.name();
            let _ = eprintln!(self.errors.cleared(); "b3store: {input}: it has no check line");
        }
        self.finish();
    }

    /// Reports how many lines were refused beyond those that were explained.
    pub(crate) fn finish(&self) {
        let count = self.count.load(Ordering::Relaxed);
        if count <= MAX_EXPLAINED {
            return;
        }
        let (input, more) = (self.name(), count - MAX_EXPLAINED);
        let _ = eprintln!(self.errors.cleared(); "b3store: {input}: {more} more lines with faults");
    }
}

/// Files by name, as `check` asks for them. The lines of the check file that have a fault are explained.
#[derive(Drop)]
pub(crate) struct ExplainedNames<'a, N: Drop> {
    refusals: &'a Refusals<'a>,
    within: N,
}

impl<'a, N: Drop> ExplainedNames<'a, N> {
    pub(crate) fn new(refusals: &'a Refusals<'a>, within: N) -> ExplainedNames<'a, N> {
        ExplainedNames { refusals, within }
    }
}

impl<N: Names + Drop> Names for ExplainedNames<'_, N> {
    ghost gives = { λ old name answer new. N.gives old.within name answer new.within };

    fn expect(&mut self, lines: &[NumberedLine]) {
        self.refusals.lines.store(1, Ordering::Relaxed);
        if let Some(
            NumberedLine {
                number,
                line: Err(fault),
            },
        ) = lines.first()
        {
            self.refusals.explain("line", *number, fault);
        }
        self.within.expect(lines);
    }

    fn digest_of(&mut self, name: &[u8]) -> Result<Option<[u8; 32]>, NameFault> {
        self.within.digest_of(name)
    }
}

/// Each line of a script that is outside the grammar is explained.
impl BadLines for Refusals<'_> {
    ghost tells = { λ old number fault new. Unit {0} };

    fn tell(&mut self, number: u64, fault: LineFault) {
        self.explain("line", number, &fault);
    }
}
