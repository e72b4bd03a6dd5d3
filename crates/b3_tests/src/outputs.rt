//! Extended outputs.

use b3_core::{Mode, OutputEnd, OutputReader, Top, Work};
use std::alloc::Global;

// The digits of the first 131 bytes of the output of `abc`, from the reference implementation's command.
const DIGITS: &[u8] =
    b"6437b3ac38465133ffb63b75273a8db548c558465d79db03fd359c6cd5bd9d851fb250ae7393f5d02813b65d521a0d492d9ba09cf7ce7f4cffd900f23374bf0bc08a1fb0b38ed276181ccbd9f7b7edbddf9f86404ad7929605f6ffa3fb1ac87983105f013384f2f11d38879c985d47003804b905f0c38975e28d36804bb60d8c303653";

// A fill at a position, with its length and its compressions.
struct Fill(u64, usize, u64);

// The pieces of some splits, and others.
const FILLS: &[Fill] = &[
    Fill(0, 131, 3),
    Fill(0, 1, 1),
    Fill(1, 130, 3),
    Fill(0, 63, 1),
    Fill(63, 68, 3),
    Fill(0, 64, 1),
    Fill(64, 67, 2),
    Fill(0, 65, 2),
    Fill(65, 66, 2),
    Fill(63, 2, 2),
    Fill(7, 0, 0),
    Fill(0, 65_536, 1024),
];

// The digits from a position on, at most those of `len` bytes.
fn digits_from(from: u64, len: usize) -> Option<&'static [u8]> {
    let from = (from.min(131) as usize) * 2;
    DIGITS.get(from..from.saturating_add(len.saturating_mul(2)).min(262))
}

fn have_digits(alloc: Global, bytes: &[u8], from: u64) -> bool {
    match (hex::encode(alloc, bytes), digits_from(from, bytes.len())) {
        (Ok(found), Some(digits)) => found.as_bytes().starts_with(digits),
        _ => false,
    }
}

// Whether the fill gives the output's bytes. A reader that is at the position isn't moved to it.
fn is_filled(alloc: Global, reader: &mut OutputReader, fill: &Fill, work: &mut Work) -> bool {
    let Fill(from, len, count) = *fill;
    let Ok(mut bytes) = vec![in alloc; 7u8; len] else {
        return false;
    };
    if reader.position() != from {
        reader.set_position(from);
    }
    let before = work.count();
    let is_filled = reader.fill(&mut bytes, work).is_ok();
    let is_count = work.count().wrapping_sub(before) == count;
    let is_moved = reader.position().wrapping_sub(from) == len as u64;
    is_filled && is_count && is_moved && have_digits(alloc, bytes.as_slice(), from)
}

#[test]
fn output_of_abc_in_pieces(rt: HostRuntime) {
    let mut work = Work::new(&rt);
    let mut reader = OutputReader::new(Top::of_chunk(&Mode::hash(), b"abc", 0, &mut work));
    for fill in FILLS {
        assert!(rt; is_filled(rt.alloc(), &mut reader, fill, &mut work));
    }
}

// Whether the output has one byte more, and no other. A refused fill keeps what was there.
fn has_one_byte_more(reader: &mut OutputReader, work: &mut Work) -> bool {
    let (mut two, mut one) = ([7u8; 2], [7u8; 1]);
    let is_refused = reader.fill(&mut two, work).is_err() && two == [7; 2];
    let is_last = reader.fill(&mut one, work).is_ok() && one == [0x58];
    let is_nothing = reader.fill(&mut [], work).is_ok();
    let is_over = reader.fill(&mut one, work).is_err() && one == [0x58];
    is_refused && is_last && is_nothing && is_over
}

#[test]
fn output_ends_before_two_to_the_sixty_four(rt: HostRuntime) {
    let mut work = Work::new(&rt);
    let mut reader = OutputReader::new(Top::of_chunk(&Mode::hash(), b"abc", 0, &mut work));
    reader.set_position(u64::MAX - 1);
    let has_one = has_one_byte_more(&mut reader, &mut work);
    assert!(rt; has_one && reader.position() == u64::MAX && work.count() == 1);
}

#[test]
fn the_end_is_an_error(rt: HostRuntime) {
    let end = OutputEnd;
    let text = format!(in rt.alloc(); "{end}").expect(&rt, "memory for the text");
    assert!(rt; text.as_str() == "H1: the output ends at 2^64-1 bytes" && end.code() == "H1");
}
