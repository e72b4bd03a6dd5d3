//! A book of what was accepted, and the shares that record in it.
//!
//! A `Book` has two numbers: the bytes that were accepted, and the number of calls. Whoever records has a `Share` of the book, and
//! `Book::record` adds the same bytes and one call to both. So the book's numbers are the sums over its shares, whichever threads have
//! these: the numbers of a share never exceed the book's, and those of a whole share, which has all 2^32 parts, are the book's own.
//! `Book::settle` compares a share with its book.
//!
//! The type parameter, `L: Ledgers`, names the two ledgers, one of bytes and one of calls, that a book and its shares belong to. So a share
//! belongs to its book by its type. A program opens a book in a function that is generic over it, calls that function with `Brand`, and
//! passes two `Blank`s of `ALL_PARTS` parts.
#![tactic(auto)]

mod amounts;
mod book;
mod ledgers;
mod refusal;
mod share;

pub use crate::amounts::ShareAmounts;
pub use crate::book::{Accepted, Book};
pub use crate::ledgers::{Ledgers, OfBytes, OfCalls};
pub use crate::refusal::{BookFull, NotWhole};
pub use crate::share::{ALL_PARTS, Share};
