//! Hashes by several threads, and bytes that they read, compared with those of one thread.

ghost use Rattle.std.specs.Prelude.{None};

use crate::fakes::pattern;
use b3_core::{Hasher, Mode, Runtime, Top, Work};
use b3_parallel::{HashThreads, Source, hash_all, hash_source, read_source, update};
use std::io;
use std::io::{ErrorKind, Read};
use std::process::Abort;
use std::sync::Arc;
use std::thread::Threads;

// The first `len` of some bytes. A read returns at most `most` of them, and fails from an offset on. A reader is at `place`.
#[derive(Drop)]
struct Torn {
    bytes: Arc<Vec<u8>>,
    len: u64,
    most: usize,
    fails_at: u64,
    place: u64,
}

impl Torn {
    fn of(bytes: &Arc<Vec<u8>>, len: u64, most: usize, fails_at: u64) -> io::Result<Torn> {
        Ok(Torn {
            bytes: Arc::try_clone(bytes)?,
            len,
            most,
            fails_at,
            place: 0,
        })
    }

    fn as_slice(&self) -> &[u8] {
        let bytes = self.bytes.as_slice();
        &bytes[..bytes.len().min(self.len as usize)]
    }
}

impl Source for Torn {
    ghost bytes = { λ _. None };

    fn again(&self) -> io::Result<Torn> {
        Torn::of(&self.bytes, self.len, self.most, self.fails_at)
    }

    fn read_at(&self, buf: &mut [u8], start: u64) -> io::Result<usize> {
        if start >= self.fails_at {
            return Err(io::Error::from(ErrorKind::Other));
        }
        let bytes = self.as_slice();
        let mut rest = &bytes[bytes.len().min(start as usize)..];
        let most = buf.len().min(self.most);
        rest.read(&mut buf[..most])
    }
}

impl Read for Torn {
    fn read(&mut self, buf: &mut [u8]) -> io::Result<usize> {
        let count = match self.read_at(buf, self.place) {
            Ok(count) => count,
            Err(error) => return Err(error),
        };
        self.place = self.place.saturating_add(count as u64);
        Ok(count)
    }
}

fn shared_pattern<R: AllocGlobal + Abort>(rt: &R, len: u64) -> Arc<Vec<u8>> {
    let bytes = pattern(rt.alloc(), 0, len).expect(rt, "memory for the pattern");
    Arc::new(rt.alloc(), bytes).expect(rt, "memory for the pattern")
}

fn by<R: AllocGlobal>(rt: &R, count: Option<u32>) -> HashThreads<'_, R> {
    HashThreads {
        rt,
        alloc: rt.alloc(),
        count,
    }
}

fn mode() -> Mode {
    Mode::keyed(&[7; 32])
}

// The node and the count of one thread.
fn by_one<T: Runtime>(rt: &T, bytes: &[u8]) -> (Top, u64) {
    let mut work = Work::new(rt);
    let mut hasher = Hasher::new(&mode());
    hasher.update(bytes, &mut work);
    let top = hasher.top(&mut work);
    (top, work.count())
}

// The node and the count of all bytes of a reader, or the kind of the error.
fn streamed<T: Threads + Runtime>(
    threads: &HashThreads<'_, T>,
    reader: &mut Torn,
) -> Result<(Top, u64), ErrorKind> {
    let mut work = Work::new(threads.rt);
    match hash_all(threads, &mode(), reader, &mut work) {
        Ok(top) => Ok((top, work.count())),
        Err(error) => Err(error.kind()),
    }
}

// The number of bytes of a block of a stream.
const BLOCK: u64 = 2 << 20;

// A length in bytes, a number of threads, and the maximum number of bytes per read.
struct Stream(u64, Option<u32>, usize);

// Lengths around blocks and whole subtrees of them; the longest has more blocks than are hashed at once.
const STREAMS: &[Stream] = &[
    Stream(0, Some(3), usize::MAX),
    Stream(1025, Some(2), 1),
    Stream(BLOCK - 1, None, 700),
    Stream(BLOCK, Some(2), usize::MAX),
    Stream(BLOCK + 1, Some(16), 700),
    Stream(2 * BLOCK + 1025, Some(1), usize::MAX),
    Stream(3 * BLOCK - 1, Some(2), 700),
    Stream(4 * BLOCK + 1, Some(3), usize::MAX),
    Stream(13 * BLOCK + 2049, Some(16), usize::MAX),
    Stream(13 * BLOCK + 2049, None, 70_000),
];

#[test]
fn a_stream_has_the_node_of_one_thread(rt: HostRuntime) {
    let bytes = shared_pattern(&rt, 13 * BLOCK + 2049);
    for Stream(len, count, most) in STREAMS {
        let mut reader = Torn::of(&bytes, *len, *most, u64::MAX).expect(&rt, "a reader");
        let threads = by(&rt, *count);
        let wanted = by_one(&rt, reader.as_slice());
        assert!(rt;
            streamed(&threads, &mut reader) == Ok(wanted),
            "{len} {most}"
        );
    }
}

#[test]
fn a_read_that_fails_is_reported(rt: HostRuntime) {
    let bytes = shared_pattern(&rt, 3 * BLOCK + 1024);
    for count in [None, Some(1), Some(3), Some(16)] {
        for fails_at in [
            0,
            1,
            BLOCK - 1,
            BLOCK,
            BLOCK + 1,
            2 * BLOCK,
            3 * BLOCK + 1024,
        ] {
            for most in [1000, usize::MAX] {
                let threads = by(&rt, count);
                let reader = Torn::of(&bytes, u64::MAX, most, fails_at);
                let mut reader = reader.expect(&rt, "a reader");
                let found = streamed(&threads, &mut reader);
                assert!(rt; found == Err(ErrorKind::Other), "{fails_at} {most}");
            }
        }
    }
}

// Whether a source has the wanted node and count, or none and no count.
fn has_hash<T: Threads + Runtime>(
    threads: &HashThreads<'_, T>,
    source: &Torn,
    stated: u64,
    wanted: Option<(Top, u64)>,
) -> bool {
    let mut work = Work::new(threads.rt);
    match hash_source(threads, &mode(), source, stated, &mut work) {
        Some(top) => Some((top, work.count())) == wanted,
        None => wanted.is_none() && work.count() == 0,
    }
}

// Whether all bytes of a source are read, in blocks of 100,000 bytes.
fn is_read<T: Threads + Sync>(threads: &HashThreads<'_, T>, source: &Torn, stated: u64) -> bool {
    let Some(blocks) = read_source(threads, source, stated, 100_000) else {
        return false;
    };
    let mut rest = source.as_slice();
    for block in &blocks {
        match rest.strip_prefix(block.as_slice()) {
            Some(following) => rest = following,
            None => return false,
        }
    }
    rest.is_empty()
}

// The number of bytes of a block of a source, and the minimum number for which threads are started.
const PLACE: u64 = 512 << 10;

const LEAST: u64 = 16 << 20;

// Lengths that are not of whole blocks.
const ODD: u64 = LEAST + PLACE + 5000;

const LONG: u64 = LEAST + 4 * PLACE - 1;

// The number of threads, the length, the stated length, and from which offset on reads fail; whether there is a node, and whether there are
// bytes.
struct Stated(u32, u64, u64, u64, bool, bool);

// There is a node for a stated length up to that of all whole blocks and of the one after them, and bytes only for the length itself.
const STATED: &[Stated] = &[
    Stated(2, LEAST, LEAST, u64::MAX, true, true),
    Stated(3, ODD, ODD, u64::MAX, true, true),
    Stated(16, LONG, LONG, u64::MAX, true, true),
    Stated(1, ODD, ODD, u64::MAX, false, false),
    Stated(3, ODD, 0, u64::MAX, false, false),
    Stated(3, ODD, LEAST - 1, u64::MAX, false, false),
    Stated(3, ODD, LEAST, u64::MAX, true, false),
    Stated(3, ODD, ODD - 1, u64::MAX, true, false),
    Stated(3, ODD, ODD + 1, u64::MAX, true, false),
    Stated(3, ODD, LEAST + 2 * PLACE - 1, u64::MAX, true, false),
    Stated(3, ODD, LEAST + 2 * PLACE, u64::MAX, false, false),
    Stated(3, ODD, 2 * LEAST, u64::MAX, false, false),
    Stated(2, ODD, ODD, 0, false, false),
    Stated(3, ODD, ODD, PLACE, false, false),
    Stated(16, ODD, ODD, 10 * PLACE + 700, false, false),
    Stated(2, ODD, ODD, ODD, false, false),
    Stated(3, ODD, ODD, ODD + 1, true, true),
];

// Whether a source has its results, with reads that return all bytes or few.
fn is_as_stated<T: Threads + Sync + Runtime + AllocGlobal>(
    rt: &T,
    bytes: &Arc<Vec<u8>>,
    stated: &Stated,
    most: usize,
) -> bool {
    let Stated(count, len, stated, fails_at, has_node, has_bytes) = *stated;
    let Ok(source) = Torn::of(bytes, len, most, fails_at) else {
        return false;
    };
    let threads = by(rt, Some(count));
    let node = if has_node {
        Some(by_one(rt, source.as_slice()))
    } else {
        None
    };
    has_hash(&threads, &source, stated, node) && is_read(&threads, &source, stated) == has_bytes
}

#[test]
fn sources_have_the_node_and_the_bytes_of_one_thread(rt: HostRuntime) {
    let bytes = shared_pattern(&rt, LONG);
    for stated in STATED {
        for most in [700, usize::MAX] {
            assert!(rt;
                is_as_stated(&rt, &bytes, stated, most),
                "{} {}",
                stated.2,
                stated.3
            );
        }
    }
}

#[test]
fn bytes_at_hand(rt: HostRuntime) {
    let bytes = shared_pattern(&rt, 300_000);
    for cut in [0usize, 1, 1024, 131_072, 131_073, 299_999] {
        let (first, then) = bytes.as_slice().split_at(cut.min(bytes.len()));
        let threads = by(&rt, Some(3));
        let (mut hasher, mut work) = (Hasher::new(&mode()), Work::new(&rt));
        update(&threads, &mut hasher, first, &mut work);
        update(&threads, &mut hasher, then, &mut work);
        let top = hasher.top(&mut work);
        assert!(rt;
            (top, work.count()) == by_one(&rt, bytes.as_slice()),
            "{cut}"
        );
    }
}
