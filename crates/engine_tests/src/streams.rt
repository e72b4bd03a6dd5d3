//! All engines with a writer that fails at a call, and with readers and writers that process one byte per call and are interrupted. Reads that
//! fail are in tests/failures.

use crate::fakes::{ByteReader, ByteWriter, NoNames};
use b3_check::{ReportOptions, Shown};
use b3_core::{Runtime, Work};
use b3_tests::pattern;
use hash_engines::{Cause, HashThreads, SumLine, SumMode, SumRequest, Verdict, check, sum};
use std::io::BufReader;
use std::marker::Brand;
use std::sync::Wait;
use std::thread::Threads;
use store_engines::{JournalFault, UnnamedLedgers, UploadOptions, audit, migrate, upload};
use store_lines::{Untold, run, serve};

#[derive(Clone, Copy, PartialEq, Eq)]
enum Engine {
    Audit,
    Check,
    Migrate,
    Run,
    Serve,
    Sum,
    Upload,
}

const ENGINES: [Engine; 7] = [
    Engine::Audit,
    Engine::Check,
    Engine::Migrate,
    Engine::Run,
    Engine::Serve,
    Engine::Sum,
    Engine::Upload,
];

// The input of an engine.
fn input(engine: Engine) -> &'static [u8] {
    match engine {
        Engine::Audit | Engine::Migrate => b"tenant 0 5\n",
        Engine::Check => b"6437b3ac38465133ffb63b75273a8db548c558465d79db03fd359c6cd5bd9d85  f",
        Engine::Run => b"tenant 5\nbegin 0 1\n",
        Engine::Serve => b"tenant 5\nopen 0 5\nputb 1 0 3\nabcputb 0 0 3\nabcuploads 0\n",
        Engine::Sum | Engine::Upload => b"abc",
    }
}

// Its output.
fn output(engine: Engine) -> &'static [u8] {
    match engine {
        Engine::Audit => b"objects 0 bytes 0 uploads 0 held 0 parts 0\naccepted 0 0\n",
        Engine::Check => b"missing f\ngood 0 bad 0 missing 1 unreadable 0 faults 0\n",
        Engine::Migrate => b"b3store-journal 2\ntenant 0 5\n",
        Engine::Run => b"tenant 0\nupload 0\n",
        Engine::Serve => b"tenant 0\nupload 0\nrefused S7\nheld 3 all\nuploads 1\n0 5 3 3\n",
        Engine::Sum => b"6437b3ac38465133ffb63b75273a8db548c558465d79db03fd359c6cd5bd9d85  -\n",
        Engine::Upload => {
            b"6437b3ac38465133ffb63b75273a8db548c558465d79db03fd359c6cd5bd9d85  -\naccepted 3 1\n"
        }
    }
}

// The number of calls for that output to a writer that accepts one byte per call. There is a flush after each answer of a script and of a
// session, and after the whole output of the other engines.
fn writes(engine: Engine) -> u64 {
    let flushes = match engine {
        Engine::Run => 2u64,
        Engine::Serve => 5,
        _ => 1,
    };
    flushes.saturating_add(output(engine).len() as u64)
}

const ALL: ReportOptions = ReportOptions {
    shown: Shown::All,
    ignores_missing: false,
};

const PLAIN: SumRequest<'static> = SumRequest {
    line: SumLine {
        name: b"-",
        length: None,
    },
    mode: SumMode::Hash,
};

const ONE_WORKER: UploadOptions = UploadOptions {
    workers: 1,
    part_chunks: 1,
    journal: false,
};

// The result of a script or, if it `is_session`, of a session.
fn answers<R: AllocGlobal + Runtime>(
    rt: &R,
    is_session: bool,
    reader: &mut ByteReader<'_>,
    writer: &mut ByteWriter,
) -> Result<Verdict, Cause> {
    let Ok(mut lines) = BufReader::new(rt.alloc(), reader) else {
        return Err(Cause::OutOfMemory);
    };
    let mut work = Work::new(rt);
    if is_session {
        serve(rt.alloc(), &mut lines, writer, &mut work)
    } else {
        run(rt.alloc(), &mut lines, writer, &mut Untold, &mut work)
    }
}

// The result of a sum.
fn summed<R: Threads + AllocGlobal + Runtime>(
    rt: &R,
    reader: &mut ByteReader<'_>,
    writer: &mut ByteWriter,
) -> Result<Verdict, Cause> {
    let threads = HashThreads {
        rt,
        alloc: rt.alloc(),
        count: None,
    };
    match sum(&threads, &PLAIN, reader, writer, &mut Work::new(rt)) {
        Ok(()) => Ok(Verdict::Good),
        Err(cause) => Err(cause),
    }
}

// The result of an upload by one worker.
fn uploaded<R: Threads + Wait + Sync + AllocGlobal + Runtime>(
    rt: &R,
    reader: &mut ByteReader<'_>,
    writer: &mut ByteWriter,
) -> Result<Verdict, Cause> {
    let Ok(ledgers) = UnnamedLedgers::new(rt.alloc()) else {
        return Err(Cause::OutOfMemory);
    };
    upload::<Brand, _, _, _>(rt, rt.alloc(), ONE_WORKER, ledgers, reader, writer)
}

// The verdict on a journal.
fn judged(found: Result<Option<JournalFault>, Cause>) -> Result<Verdict, Cause> {
    match found {
        Ok(None) => Ok(Verdict::Good),
        Ok(Some(_)) => Ok(Verdict::Refused),
        Err(cause) => Err(cause),
    }
}

// The result of an engine.
fn ended<R: Threads + Wait + Sync + AllocGlobal + Runtime>(
    rt: &R,
    engine: Engine,
    names: &mut NoNames,
    reader: &mut ByteReader<'_>,
    writer: &mut ByteWriter,
) -> Result<Verdict, Cause> {
    match engine {
        Engine::Audit => judged(audit(rt.alloc(), reader, writer)),
        Engine::Check => check(rt.alloc(), ALL, names, reader, writer),
        Engine::Migrate => judged(migrate(rt.alloc(), reader, writer)),
        Engine::Run => answers(rt, false, reader, writer),
        Engine::Serve => answers(rt, true, reader, writer),
        Engine::Sum => summed(rt, reader, writer),
        Engine::Upload => uploaded(rt, reader, writer),
    }
}

// Whether a write or flush that fails is reported and is the last call.
fn reports_write<R: Threads + Wait + Sync + AllocGlobal + Runtime>(
    rt: &R,
    engine: Engine,
    fails_at: u64,
) -> bool {
    let mut names = NoNames::new(true);
    let mut reader = ByteReader::new(input(engine), false);
    let mut writer = ByteWriter::new(rt.alloc(), fails_at);
    let found = ended(rt, engine, &mut names, &mut reader, &mut writer);
    found == Err(Cause::CannotWrite) && writer.has_stopped_in(output(engine))
}

#[test]
fn each_write_that_fails_is_the_last(rt: HostRuntime) {
    for engine in ENGINES {
        for fails_at in 0..writes(engine) {
            assert!(rt; reports_write(&rt, engine, fails_at), "{fails_at}");
        }
    }
}

// Whether an engine that reads and writes one byte for each call, and is interrupted before each, has its output.
fn is_good<R: Threads + Wait + Sync + AllocGlobal + Runtime>(
    rt: &R,
    engine: Engine,
    is_interrupted: bool,
) -> bool {
    let mut names = NoNames::new(true);
    let mut reader = ByteReader::new(input(engine), is_interrupted);
    let mut writer = ByteWriter::new(rt.alloc(), u64::MAX);
    writer.is_interrupted = is_interrupted;
    let found = ended(rt, engine, &mut names, &mut reader, &mut writer);
    let verdict = if engine == Engine::Check {
        Verdict::Refused
    } else {
        Verdict::Good
    };
    found == Ok(verdict) && writer.taken.as_slice() == output(engine)
}

#[test]
fn one_byte_a_call_and_interruptions_are_no_fault(rt: HostRuntime) {
    for engine in ENGINES {
        assert!(rt; is_good(&rt, engine, false) && is_good(&rt, engine, true));
    }
}

// The check line of 2 MiB of the pattern and a byte.
const LONG_LINE: &[u8] = b"52dc212cb4cc61cb94d25bd7b1d47b256e4c3a6d68956df50c235c37a2aeacd7  -\n";

// Whether two threads write this line for the input, if each read of it is interrupted.
fn is_line<R: Threads + AllocGlobal + Runtime>(rt: &R, input: &[u8], line: &[u8]) -> bool {
    let threads = HashThreads {
        rt,
        alloc: rt.alloc(),
        count: Some(2),
    };
    let mut reader = ByteReader::new(input, true);
    let mut writer = ByteWriter::new(rt.alloc(), u64::MAX);
    let found = sum(
        &threads,
        &PLAIN,
        &mut reader,
        &mut writer,
        &mut Work::new(rt),
    );
    found == Ok(()) && writer.taken.as_slice() == line
}

// The bytes after the first 2 MiB are read in blocks, for threads.
#[test]
fn a_long_input_is_read_on_after_interruptions(rt: HostRuntime) {
    let input = pattern(rt.alloc(), 0, 2_097_153).expect(&rt, "memory for the pattern");
    assert!(rt; is_line(&rt, &input, LONG_LINE));
}
