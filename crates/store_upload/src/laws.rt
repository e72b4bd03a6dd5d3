//! The laws of uploads.

ghost use Rattle.store_upload.specs.Laws.{LeastMissing, LeastOverlap};

use crate::length::Length;

/// States what an upload reports about its parts: the offset reported missing is the lowest that no part holds, and the offset reported
/// held is the lowest held offset of those asked for.
pub fn upload_laws<P: Length>()
    ensures missing { LeastMissing P.len }
    ensures overlap { LeastOverlap P.len }
{}
