//! Tests of hashing, parts and check files, over the public calls of `b3_core`, `b3_parallel`, `b3_forest` and `b3_check`.
#![tactic(auto)]

#[cfg(test)]
mod borrowed;
#[cfg(test)]
mod check_files;
mod fakes;
#[cfg(test)]
mod forests;
#[cfg(test)]
mod growths;
#[cfg(test)]
mod hashing;
#[cfg(test)]
mod helpers;
#[cfg(test)]
mod outputs;
#[cfg(test)]
mod threads;

pub use fakes::{FailingWriter, is_pattern, pattern};
