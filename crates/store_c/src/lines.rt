//! The lines of a session, and the journal's.

ghost use Rattle.std.specs.Prelude.{◌≡◌, ◌≢◌, ◌⊎◌, [], Ok, Some, drop, take};
ghost use Rattle.store_c.specs.Calls.{Fills, outcome};
ghost use Rattle.store_c.specs.Keeping.{IfClosed, OnStore, bytes_in};
ghost use Rattle.store_c.specs.Lines.{IsServed, IsUnserved, Serves, served_answer};
ghost use Rattle.store_core.specs.Questions.{AnswersAs};
ghost use Rattle.store_journal.specs.Journal.{entry_lines};

use crate::answers::{DONE, IS_OPEN, NO_MEMORY, NO_VALUE, Why};
use crate::keeping::{is_open, keep, put_store, take_store};
use b3_core::Work;
use edge::{Cause, Verdict};
use std::alloc::Global;
use store_core::{Entry, Refusal, Store, entry_lines};
use store_handle::{Handle, Kept};
use store_lines::{UploadsAtEnd, serve_over};

/// The lines end within the bytes after a line: a `putb` was not run, or a `file` was aborted.
const TRUNCATED: u32 = 67;

/// Out of memory for an answer: the lines up to that one were run, and the text is a prefix of their answers.
const ANSWER_LOST: u32 = 68;

/// There are 2^64-1 lines or more: those were run.
const TOO_MANY_LINES: u32 = 69;

/// Runs the lines of a session on a store, and has a closed handle keep the text of their answers. Returns 0; 67 if the lines end within the
/// bytes after a line: a `putb` is then not run, and a `file` is aborted; 68 if there is no memory for an answer: then the lines up to that
/// one were run, and the text is cut off; 14 if there is no memory before the first line, 64 if the first handle keeps no store, 65 if the
/// second is open: then nothing changes.
#[unsafe(no_mangle)]
pub extern "C" fn b3store_lines(
    alloc: Global,
    store: &mut Handle,
    lines: &[u8],
    answers: &mut Handle,
    work: &mut Work,
) -> u32
    ensures served { IsUnserved result ⊎ Serves store.old.kept lines.now result answers.new.kept store.new.kept }
    ensures unserved { IsUnserved result → (store.new.kept ≡ store.old.kept) × (answers.new.kept ≡ answers.old.kept) }
    ensures handles { IfClosed answers.old.kept (OnStore store.old.kept (λ s. (result ≢ 64) × (result ≢ 65)) (result ≡ 64)) (result ≡ 65) }
{
    if is_open(answers, alloc) {
        return IS_OPEN;
    }
    let Some(mut taken) = take_store(store, alloc) else {
        return NO_VALUE;
    };
    let Ok(mut place) = Box::new(alloc, Kept::Nothing) else {
        put_store(store, taken, alloc);
        return NO_MEMORY;
    };
    let mut text = Vec::new(alloc);
    let served = serve(alloc, &mut taken.store, lines, &mut text, work);
    put_store(store, taken, alloc);
    if let Err(Cause::OutOfMemory) = served {
        return NO_MEMORY;
    }
    *place = Kept::Text(text);
    answers.put(place, alloc);
    number_of(served)
}

fn serve(
    alloc: Global,
    store: &mut Store,
    lines: &[u8],
    text: &mut Vec<u8>,
    work: &mut Work,
) -> Result<Verdict, Cause>
    requires { text.old.items ≡ [] }
    ensures { IsServed store.old lines.now result text.new.items store.new }
{
    let mut reader = lines;
    serve_over(alloc, store, UploadsAtEnd::Kept, &mut reader, text, work)
}

fn number_of(served: Result<Verdict, Cause>) -> u32
    ensures { result ≡ served_answer served }
{
    match served {
        Ok(Verdict::Good) => DONE,
        Ok(Verdict::Refused) => TRUNCATED,
        Err(Cause::CannotWrite) => ANSWER_LOST,
        Err(Cause::CannotRead) => TOO_MANY_LINES,
        Err(Cause::OutOfMemory) => NO_MEMORY,
    }
}

/// Has a closed handle keep the lines of up to `count` entries of the journal, starting at the one with the number `from`, which counts from
/// 0. Returns 65 if the handle is open. Refusal: 14.
#[unsafe(no_mangle)]
pub extern "C" fn b3store_journal(
    alloc: Global,
    store: &mut Handle,
    from: u64,
    count: u64,
    text: &mut Handle,
    why: &mut Why,
) -> u32
    ensures { Fills (λ s answer. AnswersAs (λ k. bytes_in (Some k)) (Ok (Some (entry_lines (take count (drop from s.journal))))) answer) store.old.kept (outcome result text.old.kept text.new.kept why.old why.new) store.new.kept }
{
    if is_open(text, alloc) {
        return IS_OPEN;
    }
    let Some(taken) = take_store(store, alloc) else {
        return NO_VALUE;
    };
    let found = journal_text(alloc, chosen(taken.store.journal(), from, count));
    put_store(store, taken, alloc);
    keep(alloc, found, text, why)
}

fn journal_text(alloc: Global, entries: &[Entry]) -> Result<Kept, Refusal>
    ensures { AnswersAs (λ k. bytes_in (Some k)) (Ok (Some (entry_lines entries.now))) result }
{
    match entry_lines(alloc, entries) {
        Ok(text) => Ok(Kept::Text(text)),
        Err(_) => Err(Refusal::NoMemory),
    }
}

// Up to `count` entries, starting at `from`.
fn chosen(entries: &[Entry], from: u64, count: u64) -> &[Entry]
    ensures { result.now ≡ take count (drop from entries.now) }
{
    let from = from.min(entries.len() as u64) as usize;
    let later = &entries[from..];
    let count = count.min(later.len() as u64) as usize;
    &later[..count]
}
