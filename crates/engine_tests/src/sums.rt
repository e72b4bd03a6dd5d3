//! The engine of `sum` over files: in which order it asks for them, and where a failed write ends it.

use crate::fakes::{ByteWriter, HintedSources};
use b3_check::Name;
use b3_core::{Mode, Runtime, Top, Work};
use hash_engines::{Cause, SumLines, Verdict, names_of, sum_files};

// Whether the sum of some names ends in this way after these calls of the sources, if the write or flush with the number `fails_at` fails.
fn asks<R: AllocGlobal + Runtime>(
    rt: &R,
    names: &[Name],
    root: Option<Top>,
    fails_at: u64,
    ending: Result<Verdict, Cause>,
    calls: &[u8],
) -> bool {
    let alloc = rt.alloc();
    let lines = SumLines {
        names,
        length: None,
    };
    let mut sources = HintedSources::new(alloc, root);
    let mut writer = ByteWriter::new(alloc, fails_at);
    let ended = sum_files(alloc, &lines, &mut sources, &mut writer, &mut Work::new(rt));
    let is_cut = writer.taken.len() as u64 <= fails_at;
    ended == ending && is_cut && sources.was_asked(calls)
}

// The first line has 68 bytes and a flush, the second one 70.
#[test]
fn sum_announces_names_and_ends_at_the_first_failed_write(rt: HostRuntime) {
    let names = names_of(rt.alloc(), &["x", "abc", "-"]).expect(&rt, "memory for the names");
    let names = names.as_slice();
    let refused = Ok(Verdict::Refused);
    assert!(rt;
        asks(
            &rt,
            names,
            None,
            u64::MAX,
            refused,
            b" x abc -;x? abc -;abc? -;-?"
        )
    );
    let root = Top::of_input(&Mode::hash(), b"abc", &mut Work::new(&rt));
    for fails_at in 0..140u64 {
        let calls: &[u8] = if fails_at < 69 {
            b" x abc -;x?"
        } else {
            b" x abc -;x? abc -;abc?"
        };
        assert!(rt;
            asks(
                &rt,
                names,
                Some(root),
                fails_at,
                Err(Cause::CannotWrite),
                calls
            )
        );
    }
}
