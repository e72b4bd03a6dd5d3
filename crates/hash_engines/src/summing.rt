//! The engine of `sum`.

ghost use Rattle.std.specs.Prelude.{◌≡◌, ◌≢◌, ◌++◌, ℕ, List, Err, IfErr, IfOk, IfSome, OnOk, codes};
ghost use Rattle.std.specs.Io.KnownBytes.{Appends, IsAtEnd};
ghost use Rattle.hex.specs.Hex.{encode_lower};
ghost use Rattle.b3_check.specs.Lines.{written_line};
ghost use Rattle.b3_check.specs.Names.{IsName};
ghost use Rattle.b3_core.specs.ExtendedOutput.{output_of};
ghost use Rattle.b3_core.specs.Tree.{tree_top};
ghost use Rattle.hash_engines.specs.Sums.{RootAnswer, AreRootAnswers, IsStoppedAt, IsSumStopped, root_answers_text, root_answers_verdict, sum_mode, root_text, sum_text};
ghost use Rattle.edge.specs.Output.{WroteSome};
ghost use Rattle.hash_engines.specs.inner.Sums.{IsSumOf, both};

use crate::sources::{FileFault, Sources};
use b3_check::{Line, Name};
use b3_core::{Mode, OutputReader, Runtime, Top, Work};
use b3_parallel::{HashThreads, hash_all};
use edge::{Cause, Verdict, read_cause, write_all};
use std::alloc::{AllocError, Global};
use std::io::{Read, Write};
use std::thread::Threads;

/// The mode that `sum` hashes in.
#[derive(Clone, Copy)]
pub enum SumMode<'a> {
    /// The default hash, without a key.
    Hash,
    /// The keyed hash with this key.
    Keyed([u8; 32]),
    /// A key derived in this context.
    Derive(&'a str),
}

/// The line that is written for an input.
#[derive(Clone, Copy)]
pub struct SumLine<'a> {
    /// The name in the check line.
    pub name: &'a [u8],
    /// The number of bytes of extended output to write instead of the check line.
    pub length: Option<u32>,
}

/// The lines that are written for files.
#[derive(Clone, Copy)]
pub struct SumLines<'a> {
    /// The names of the files.
    pub names: &'a [Name],
    /// The number of bytes of extended output to write instead of each check line.
    pub length: Option<u32>,
}

/// How an input is hashed, and the line that is written for it.
#[derive(Clone, Copy)]
pub struct SumRequest<'a> {
    /// The line.
    pub line: SumLine<'a>,
    /// The mode that the input is hashed in.
    pub mode: SumMode<'a>,
}

/// The mode that the options ask for.
pub(crate) fn mode_of(mode: SumMode<'_>, work: &mut Work) -> Mode
    ensures { result ≡ sum_mode mode.entry }
{
    match mode {
        SumMode::Hash => Mode::hash(),
        SumMode::Keyed(key) => Mode::keyed(&key),
        SumMode::Derive(context) => Mode::derive(context.as_bytes(), work),
    }
}

// The check line of the input with this root.
fn check_line(
    alloc: Global,
    name: &[u8],
    root: &Top,
    work: &mut Work,
) -> Result<Vec<u8>, AllocError>
    requires { IsName name.now }
    ensures { IfOk result (λ line. line.items ≡ written_line (record { digest = output_of root.now 0 32; name = name.now })) }
{
    let digest = root.root32(work);
    Line::text_of(alloc, digest, name)
}

// The digits of the first `len` bytes of the extended output of a root, and a newline.
fn output_line(alloc: Global, root: Top, len: u32, work: &mut Work) -> Result<Vec<u8>, AllocError>
    ensures { IfOk result (λ line. line.items ≡ encode_lower (output_of root 0 len) ++ codes "\n") }
{
    let mut output = vec![in alloc; 0u8; len as usize]?;
    let mut reader = OutputReader::new(root);
    reader.fill(&mut output, work).unwrap();
    let mut line = hex::encode(alloc, &output[..])?;
    line.push_str("\n")?;
    Ok(line.into_bytes())
}

// What is written for the input with this root.
fn text_of(
    alloc: Global,
    line: &SumLine<'_>,
    root: Top,
    work: &mut Work,
) -> Result<Vec<u8>, AllocError>
    requires { IsName line.now.name.now }
    ensures { IfOk result (λ text. text.items ≡ root_text line.now.length line.now.name.now root) }
{
    match line.length {
        None => check_line(alloc, line.name, &root, work),
        Some(len) => output_line(alloc, root, len, work),
    }
}

/// Writes the line for an input with this root: without a length the check line of its hash and the name, with one the digits of `length`
/// bytes of the extended output, and a newline.
///
/// It stops if out of memory, with nothing written, or at a failed write, after which a prefix of the line was written.
pub fn write_root<W: Write>(
    alloc: Global,
    line: &SumLine<'_>,
    root: Top,
    writer: &mut W,
    work: &mut Work,
) -> Result<(), Cause>
    requires { IsName line.now.name.now }
    ensures written { OnOk result (Appends (W.contents writer.old) (W.contents writer.new) (root_text line.now.length line.now.name.now root)) }
    ensures cause { IfErr result (λ cause. cause ≢ Cause.CannotRead) }
    ensures silent { IfErr result (λ cause. cause ≡ Cause.OutOfMemory → W.contents writer.new ≡ W.contents writer.old) }
    ensures failed { result ≡ Err Cause.CannotWrite → WroteSome (W.contents writer.old) (W.contents writer.new) (root_text line.now.length line.now.name.now root) }
{
    let text = text_of(alloc, line, root, work)?;
    write_all(writer, &text)
}

/// Writes the hash of all its input, as requested.
///
/// Without a length that is the check line with the requested name; with a length it is the digits of that many bytes of the extended
/// output, and a newline.
///
/// The input is hashed as it is read, by at most `threads.count` threads, in memory that does not grow with it. No thread is left running.
///
/// It stops at the first failed read or write, or if out of memory. It writes nothing before it has read everything; after a failed write a
/// prefix of the result was written.
pub fn sum<T: Threads + Runtime, R: Read, W: Write>(
    threads: &HashThreads<'_, T>,
    request: &SumRequest<'_>,
    reader: &mut R,
    writer: &mut W,
    work: &mut Work,
) -> Result<(), Cause>
    requires { IsName request.now.line.name.now }
    ensures written { OnOk result (IfSome (R.remaining reader.old) (λ input.
        Appends (W.contents writer.old) (W.contents writer.new) (sum_text request.now.line.length request.now.line.name.now (sum_mode request.now.mode) input))) }
    ensures end { OnOk result (IsAtEnd (R.remaining reader.new)) }
    ensures silent { IfErr result (λ cause. cause ≢ Cause.CannotWrite → W.contents writer.new ≡ W.contents writer.old) }
    ensures failed { result ≡ Err Cause.CannotWrite → IfSome (R.remaining reader.old) (λ input.
        WroteSome (W.contents writer.old) (W.contents writer.new) (sum_text request.now.line.length request.now.line.name.now (sum_mode request.now.mode) input)) }
{
    let mode = mode_of(request.mode, work);
    let root = match hash_all(threads, &mode, reader, work) {
        Ok(root) => root,
        Err(error) => return Err(read_cause(&error)),
    };
    write_root(threads.alloc, &request.line, root, writer, work)
}

/// Writes the hash of the file of each name, in order, each when it is known: its check line, or with a length the digits of `length` bytes
/// of the extended output. If there is no root for a name, this is reported to the sources, nothing is written for the name, and the next
/// one follows. Returns `Good` if there is a root for each name. Before each name it announces the following names to the sources.
///
/// It stops at the first failed write, or if it or the sources are out of memory. Then everything was written for the names before; for the
/// name at which it stopped, a prefix was written if a write failed, otherwise nothing.
pub fn sum_files<S: Sources, W: Write>(
    alloc: Global,
    lines: &SumLines<'_>,
    sources: &mut S,
    writer: &mut W,
    work: &mut Work,
) -> Result<Verdict, Cause>
    ensures summed { IfOk result (λ verdict. (answers : List RootAnswer) × AreRootAnswers S.gives S.reports sources.old lines.now.names.now answers sources.new
        × Appends (W.contents writer.old) (W.contents writer.new) (root_answers_text lines.now.length lines.now.names.now answers) × (verdict ≡ root_answers_verdict answers)) }
    ensures stopped { IfErr result (λ cause. IsSumStopped S.gives S.reports lines.now.length sources.old lines.now.names.now cause sources.new (W.contents writer.old) (W.contents writer.new)) }
{
    let (names, length) = (lines.names, lines.length);
    let mut verdict = Verdict::Good;
    for (index, name) in names.iter().enumerate() {
        sources.expect(&names[index..]);
        let name = name.as_bytes();
        let found = sum_file(alloc, &SumLine { name, length }, sources, writer, work)?;
        verdict = both(verdict, found);
    }
    Ok(verdict)
}

// Good if both are.
fn both(first: Verdict, second: Verdict) -> Verdict
    ensures { result ≡ both first second }
{
    match first {
        Verdict::Good => second,
        Verdict::Refused => Verdict::Refused,
    }
}

// Writes the line for the file of a name, or reports why there is no root.
fn sum_file<S: Sources, W: Write>(
    alloc: Global,
    line: &SumLine<'_>,
    sources: &mut S,
    writer: &mut W,
    work: &mut Work,
) -> Result<Verdict, Cause>
    requires { IsName line.now.name.now }
    ensures summed { IfOk result (IsSumOf S.gives S.reports line.now.length sources.old line.now.name.now sources.new (W.contents writer.old) (W.contents writer.new)) }
    ensures stopped { IfErr result (λ cause. IsStoppedAt S.gives line.now.length cause sources.old line.now.name.now sources.new (W.contents writer.old) (W.contents writer.new)) }
{
    match sources.root_of(line.name) {
        Ok(root) => {
            write_root(alloc, line, root, writer, work)?;
            Ok(Verdict::Good)
        }
        Err(FileFault::Failed(reason)) => {
            sources.report(line.name, reason);
            Ok(Verdict::Refused)
        }
        Err(FileFault::NoMemory) => Err(Cause::OutOfMemory),
    }
}
