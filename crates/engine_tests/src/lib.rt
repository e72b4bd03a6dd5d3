//! Tests of command lines, engines and journals, over the public calls of `store_command_line`, `hash_engines`, `store_engines`,
//! `store_lines` and `store_journal`.
//! What can be shown by the input and output of a process is in tests/cases.
#![tactic(auto)]

#[cfg(test)]
mod checks;
#[cfg(test)]
mod command_lines;
#[cfg(test)]
mod fakes;
#[cfg(test)]
mod journal;
#[cfg(test)]
mod promises;
#[cfg(test)]
mod sessions;
#[cfg(test)]
mod streams;
#[cfg(test)]
mod sums;
