//! The engine.

ghost use Rattle.std.specs.Prelude.{◌≡◌, ◌≢◌, ◌<◌, IfErr, IfOk, IfSome, OnOk, Err, length};
ghost use Rattle.std.specs.Io.BufRead.{DropsThrough, take_through};
ghost use Rattle.std.specs.Io.KnownBytes.{Appends, IsAtEnd};
ghost use Rattle.edge.specs.Output.{WroteSome};
ghost use Rattle.store_lines.specs.inner.Requests.{IsSessionLine};
ghost use Rattle.store_lines.specs.Running.{AreTold, HasMemory, Ran, RanOut, RanSome};
ghost use Rattle.store_lines.specs.Script.{verdict_ending, widest_start, worse};
ghost use Rattle.store_lines.specs.inner.Script.{RanUntil, result_of};
ghost use Rattle.store_lines.specs.declared.ending.Ending.TheVariants as endings;

use crate::answer::{MAX_LINE, answer_read};
use crate::answering::report;
use crate::bad_lines::BadLines;
use crate::ending::Ending;
use b3_core::Work;
use edge::{Cause, LineRead, Verdict};
use std::alloc::Global;
use std::io::{BufRead, Write};
use store_core::{Limits, Store};

/// Runs a script on an empty store with the widest limits: reads it line by line, and writes the answer to each line when its newline was
/// read. The writer is flushed after each answer. Returns `Good` if no line was refused and each was a command.
///
/// It stops at the first failed read or write, or if an allocation fails for a line or a part's bytes; then nothing more is written. After
/// 2^64-1 lines it stops reading, as std's readers do. If some answer is `refused S14`, the following lines are still answered, but the run
/// ends with `OutOfMemory`, even if a read or a write fails later: the first cause is returned. A partial line left by a failed read is not
/// run. `faults` is told of each line outside the grammar before it is answered. Compressions are counted in `work`.
pub fn run<R: BufRead, W: Write, F: BadLines>(
    alloc: Global,
    reader: &mut R,
    writer: &mut W,
    faults: &mut F,
    work: &mut Work,
) -> Result<Verdict, Cause>
    // The writer grew by the script's output, and the verdict is that of its answers, none of which is `refused S14`.
    ensures written { IfOk result (λ verdict. IfSome (R.Read.remaining reader.old) (λ input. Ran input (AreTold F.tells faults.old faults.new) (W.contents writer.old) (W.contents writer.new) (verdict_ending verdict))) }
    ensures end { OnOk result (IfSome (R.Read.remaining reader.old) (λ _. IsAtEnd (R.Read.remaining reader.new))) }
    // After a failed read it grew by the answers to a prefix of the lines, none of which is `refused S14`.
    ensures read { result ≡ Err Cause.CannotRead → IfSome (R.Read.remaining reader.old) (λ input. RanSome input (AreTold F.tells faults.old faults.new) HasMemory (Appends (W.contents writer.old) (W.contents writer.new))) }
    // After a failed write it grew by a prefix of such answers, the last of which was being written.
    ensures failed { result ≡ Err Cause.CannotWrite → IfSome (R.Read.remaining reader.old) (λ input. RanSome input (AreTold F.tells faults.old faults.new) HasMemory (WroteSome (W.contents writer.old) (W.contents writer.new))) }
    // If out of memory, it grew by the answers to the lines before one for which an allocation failed; or some answer is `refused S14`, and
    // it grew by the answers to a prefix of the lines or, if a write failed, by a prefix of these answers.
    ensures memory { result ≡ Err Cause.OutOfMemory → IfSome (R.Read.remaining reader.old) (λ input. RanOut input (AreTold F.tells faults.old faults.new) (W.contents writer.old) (W.contents writer.new)) }
{
    let mut store = Store::new(alloc, Limits::full());
    let mut ending = Ending::Good;
    let ended = answer_lines(alloc, &mut store, reader, writer, faults, &mut ending, work);
    result_of(ending, ended)
}

// Answers the lines of a script, starting with an empty store; `ending` is then how the answers end.
fn answer_lines<R: BufRead, W: Write, F: BadLines>(
    alloc: Global,
    store: &mut Store,
    reader: &mut R,
    writer: &mut W,
    faults: &mut F,
    ending: &mut Ending,
    work: &mut Work,
) -> Result<(), Cause>
    requires store { store.old ≡ widest_start }
    requires ending { ending.old ≡ endings.Good }
    ensures until { IfSome (R.Read.remaining reader.old) (λ input. RanUntil result input (AreTold F.tells faults.old faults.new) (W.contents writer.old) (W.contents writer.new) ending.new) }
    ensures end { OnOk result (IfSome (R.Read.remaining reader.old) (λ _. IsAtEnd (R.Read.remaining reader.new))) }
{
    let mut line: Vec<u8> = Vec::new(alloc);
    for index in 0..u64::MAX {
        let read = read_line(reader, &mut line)?;
        if read.count == 0 {
            return Ok(());
        }
        let number = index + 1;
        let answer = answer_read(alloc, store, number, line.as_slice(), read, faults, work)?;
        *ending = worse(*ending, answer.ending());
        report(writer, store.journal(), answer)?;
    }
    Err(Cause::CannotRead)
}

// Reads the next line with its newline, keeping at most as many bytes as a command's line can have; it has none at the end of the input.
fn read_line<R: BufRead>(reader: &mut R, line: &mut Vec<u8>) -> Result<LineRead, Cause>
    ensures read { IfOk result (λ read. IfSome (R.Read.remaining reader.old) (λ left. IsSessionLine (take_through 10 left) read line.new.items)) }
    ensures rest { OnOk result (DropsThrough (R.Read.remaining reader.old) (R.Read.remaining reader.new) 10) }
    // An allocation failed for a line's bytes.
    ensures left { result ≡ Err Cause.OutOfMemory → IfSome (R.Read.remaining reader.old) (λ left. 0 < length left) }
    ensures unwritten { IfErr result (λ cause. cause ≢ Cause.CannotWrite) }
{
    let read = edge::read_line(reader, line, MAX_LINE)?;
    if read.is_kept {
        Ok(read)
    } else {
        Err(Cause::OutOfMemory)
    }
}

// The result of a run whose answers end like this, and that stopped like this.
fn result_of(ending: Ending, ended: Result<(), Cause>) -> Result<Verdict, Cause>
    ensures { result ≡ result_of ending ended }
{
    match ending {
        Ending::Good => ended.map(|()| Verdict::Good),
        Ending::Refused => ended.map(|()| Verdict::Refused),
        Ending::OutOfMemory => Err(Cause::OutOfMemory),
    }
}

// The worse of two endings.
fn worse(first: Ending, second: Ending) -> Ending
    ensures { result ≡ worse first second }
{
    match (first, second) {
        (Ending::OutOfMemory, _) | (_, Ending::OutOfMemory) => Ending::OutOfMemory,
        (Ending::Refused, _) | (_, Ending::Refused) => Ending::Refused,
        (Ending::Good, Ending::Good) => Ending::Good,
    }
}
