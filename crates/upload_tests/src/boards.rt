//! Boards. Several threads draw numbers in uploads.

ghost use Rattle.std.specs.Prelude.{◌≡◌};
ghost use Rattle.store_board.specs.Seats.{IsSeatOf, seats_of};

use std::process::Abort;
use store_board::{Board, BoardRefusal, BoardSeat};

// The number that a seat draws.
fn claimed(board: &Board, seat: &mut BoardSeat) -> Option<u64>
    requires { IsSeatOf board.now seat.old }
    ensures { IsSeatOf board.now seat.new }
{
    let draw = board.claim(seat)?;
    Some(draw.number())
}

// What both seats draw in turn, twice each.
fn drawn_in_turn(board: &Board, first: &mut BoardSeat, second: &mut BoardSeat) -> [Option<u64>; 4]
    requires first { IsSeatOf board.now first.old }
    requires second { IsSeatOf board.now second.old }
    ensures first { IsSeatOf board.now first.new }
    ensures second { IsSeatOf board.now second.new }
{
    [
        claimed(board, first),
        claimed(board, second),
        claimed(board, first),
        claimed(board, second),
    ]
}

// Whether one seat sees a stop before and after the other makes it, and what it draws then.
fn seen_and_drawn(
    board: &Board,
    stops: &mut BoardSeat,
    looks: &mut BoardSeat,
) -> (bool, bool, Option<u64>)
    requires stops { IsSeatOf board.now stops.old }
    requires looks { IsSeatOf board.now looks.old }
    ensures stops { IsSeatOf board.now stops.new }
    ensures looks { IsSeatOf board.now looks.new }
{
    let before = board.stopped(looks);
    board.stop(stops);
    let after = board.stopped(looks);
    (before, after, claimed(board, looks))
}

// A board for four parts, and two seats.
fn two_seats<R: AllocGlobal + Abort>(rt: &R) -> (Board, BoardSeat, BoardSeat)
    ensures first { IsSeatOf result.0 result.1 }
    ensures second { IsSeatOf result.0 result.2 }
    ensures all { seats_of result.0 ≡ 2 }
{
    let (board, mut seats) = Board::new(rt.alloc(), 4, 2).expect(rt, "a board");
    let second = seats.pop().expect(rt, "two seats");
    let first = seats.pop().expect(rt, "two seats");
    (board, first, second)
}

// A stop is seen by the other seat, and neither draws less for it. Both draw until they are done, the first once more.
#[test]
fn seats_draw_in_turn(rt: HostRuntime) {
    let (board, mut first, mut second) = two_seats(&rt);
    let drawn = claimed(&board, &mut first);
    let seen = seen_and_drawn(&board, &mut second, &mut first);
    let others = drawn_in_turn(&board, &mut first, &mut second);
    let seats = vec![in rt.alloc(); first, second].expect(&rt, "both seats");
    let end = board.close(seats);
    assert!(rt; drawn == Some(0) && seen == (false, true, Some(1)));
    assert!(rt; others == [Some(2), Some(3), None, None]);
    assert!(rt; end.handed == 4 && end.spent);
}

// The number of seats of a board with these counts, or why there is none.
fn seats_of(rt: &impl AllocGlobal, parts: u64, seats: u64) -> Result<usize, BoardRefusal> {
    match Board::new(rt.alloc(), parts, seats) {
        Ok((_, all)) => Ok(all.len()),
        Err(refusal) => Err(refusal),
    }
}

#[test]
fn counts_are_limited(rt: HostRuntime) {
    assert!(rt; seats_of(&rt, 17_179_869_184, 1) == Ok(1));
    assert!(rt; seats_of(&rt, 17_179_869_185, 0) == Err(BoardRefusal::TooManyParts));
    assert!(rt; seats_of(&rt, 1, 16) == Ok(16));
    assert!(rt; seats_of(&rt, 1, 17) == Err(BoardRefusal::BadSeats));
    assert!(rt; seats_of(&rt, 1, 0) == Err(BoardRefusal::BadSeats));
}
