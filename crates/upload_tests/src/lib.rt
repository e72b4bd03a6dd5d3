//! Tests of boards and uploads, over the public calls of `store_board` and `store_shared`.
#![tactic(auto)]

#[cfg(test)]
mod boards;
#[cfg(test)]
mod failed_uploads;
#[cfg(test)]
mod gates;
#[cfg(test)]
mod hand_overs;
#[cfg(test)]
mod hashes;
#[cfg(test)]
mod parts;
#[cfg(test)]
mod reports;
#[cfg(test)]
mod strangers;
#[cfg(test)]
mod uploading;
#[cfg(test)]
mod uploads;
