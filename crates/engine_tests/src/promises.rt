//! What engines promise, stated again over bytes in memory: if a clause of theirs is weakened, a function here can't be proved.

ghost use Rattle.std.specs.Prelude.{◌≡◌, [], IfOk, Some};
ghost use Rattle.store_engines.specs.Audits.{audit_text};
ghost use Rattle.store_engines.specs.Journals.{journal_fault};
ghost use Rattle.store_engines.specs.Migrations.{migrate_text};
ghost use Rattle.store_core.specs.Carried.{IsCarried};
ghost use Rattle.store_lines.specs.Access.{alone_stands};
ghost use Rattle.store_lines.specs.Owning.{alone};
ghost use Rattle.store_lines.specs.Running.{AreTold, Ran};
ghost use Rattle.store_lines.specs.Script.{verdict_ending, widest_start};
ghost use Rattle.store_lines.specs.Turns.{Finishes, ServedAllOver};

use b3_core::Work;
use std::alloc::Global;
use store_engines::{Cause, JournalFault, Verdict, audit, migrate};
use store_lines::{BadLines, Untold, run, serve};

// What is written, and how it ended.
type Written<E> = (Vec<u8>, Result<E, Cause>);

fn ran<F: BadLines>(
    alloc: Global,
    script: &[u8],
    faults: &mut F,
    work: &mut Work,
) -> Written<Verdict>
    ensures { IfOk result.1 (λ verdict. Ran script.now (AreTold F.tells faults.old faults.new) (Some []) (Some result.0.items) (verdict_ending verdict)) }
{
    let (mut reader, mut writer) = (script, Vec::new(alloc));
    let ended = run(alloc, &mut reader, &mut writer, faults, work);
    (writer, ended)
}

fn served(alloc: Global, lines: &[u8], work: &mut Work) -> Written<Verdict>
    ensures { IfOk result.1 (λ verdict. ServedAllOver alone (alone_stands widest_start) (Finishes alone (λ last. IsCarried last.store)) lines.now (Some []) (Some result.0.items) verdict) }
{
    let (mut reader, mut writer) = (lines, Vec::new(alloc));
    let ended = serve(alloc, &mut reader, &mut writer, work);
    (writer, ended)
}

fn audited(alloc: Global, journal: &[u8]) -> Written<Option<JournalFault>>
    ensures { IfOk result.1 (λ fault. (fault ≡ journal_fault journal.now) × (result.0.items ≡ audit_text journal.now)) }
{
    let (mut reader, mut writer) = (journal, Vec::new(alloc));
    let ended = audit(alloc, &mut reader, &mut writer);
    (writer, ended)
}

fn migrated(alloc: Global, journal: &[u8]) -> Written<Option<JournalFault>>
    ensures { IfOk result.1 (λ fault. (fault ≡ journal_fault journal.now) × (result.0.items ≡ migrate_text journal.now)) }
{
    let (mut reader, mut writer) = (journal, Vec::new(alloc));
    let ended = migrate(alloc, &mut reader, &mut writer);
    (writer, ended)
}

// Whether the engine wrote this text, and refused nothing.
fn is_good(written: Written<Verdict>, text: &[u8]) -> bool {
    let (bytes, ended) = written;
    ended == Ok(Verdict::Good) && bytes.as_slice() == text
}

// Whether the engine wrote this text, and did not refuse the journal.
fn is_legal(written: Written<Option<JournalFault>>, text: &[u8]) -> bool {
    let (bytes, ended) = written;
    ended == Ok(None) && bytes.as_slice() == text
}

#[test]
fn engines_answer_bytes_in_memory(rt: HostRuntime) {
    let alloc = rt.alloc();
    let mut work = Work::new(&rt);
    let is_run = is_good(
        ran(alloc, b"tenant 5\nusage 0\n", &mut Untold, &mut work),
        b"tenant 0\nused 0 reserved 0 limit 5\n",
    );
    let is_served = is_good(
        served(alloc, b"tenant 5\ntenants\n", &mut work),
        b"tenant 0\ntenants 1\n0 0 0 5\n",
    );
    let is_audited = is_legal(
        audited(alloc, b"tenant 0 5\n"),
        b"objects 0 bytes 0 uploads 0 held 0 parts 0\naccepted 0 0\n",
    );
    let is_migrated = is_legal(
        migrated(alloc, b"tenant 0 5\n"),
        b"b3store-journal 2\ntenant 0 5\n",
    );
    assert!(rt; is_run && is_served && is_audited && is_migrated);
}
