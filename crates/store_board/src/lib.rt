//! What the workers of an upload share besides the store: a board from which they draw the numbers of the parts, and a hand-over by which
//! the parts reach the thread that collects them.
//!
//! A `Board` has the numbers below a limit, and a few seats. Each thread has a `BoardSeat`. It draws the next number by `claim`, as a
//! `Draw` that no other thread can have, stops the board by `stop`, and asks by `stopped` whether a seat has stopped it. Each of the three
//! is one atomic step, takes no handle of the runtime, and never waits. Under any order of such steps each number is drawn once, and
//! `claim` returns `None` only if every number was drawn. `stopped` returns true only if a seat stopped the board, and always to a seat
//! that stopped it or has seen it stopped. `Board::close` takes all seats, and states this for all of them together. Nothing is said about
//! which seat draws a number, or about when a thread makes progress.
//!
//! A `HandOver` is a bounded queue with several givers and one taker. Each giver has a `GivePass`, the taker has the `TakePass`. `give`
//! returns the part only if the queue was full at some moment of the call, and `take` returns `None` only if it was empty at one. What was
//! taken, followed by what the queue holds, is all that was given, and the parts of each giver are in the order in which it gave them.
//! `HandOver::close` takes all passes, and states this for all of them together. `HandOver::gather` takes them while the queue continues:
//! `take_rest` then takes what is left, and returns `None` only once what was taken is all that was given. All calls except `new` and
//! `gather` may wait: they keep their promise if they return. Nothing is said about the order between givers.
//!
//! A `Witness` is a caller's own rule about the queue's items and what each pass has done. Each call requires that its own step keeps the
//! rule, and a refusal of `give` or `take` says that it held for a full or an empty queue. So an implementation cannot refuse without
//! having looked at the queue. `Unasked` is the rule that requires nothing.
#![tactic(auto)]

mod board;
mod board_rule;
mod hand_over;
mod hand_over_rule;
mod passes;
mod refusals;
mod seats;

pub use board::{Board, Draw, Drawn};
pub use hand_over::{HandOver, Moved};
pub use hand_over_rule::{Unasked, Witness};
pub use passes::{GivePass, TakePass, Taken, WholePass};
pub use refusals::{BoardRefusal, HandOverRefusal};
pub use seats::BoardSeat;
