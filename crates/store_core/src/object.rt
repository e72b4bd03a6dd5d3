//! Objects.

ghost use Rattle.std.specs.Prelude.{◌≡◌, ◌+◌, ◌-◌, ◌≤◌, ◌++◌, IfOk, drop, length, map, min, take};
ghost use Rattle.std.specs.Arc.{arc_value};
ghost use Rattle.b3_core.specs.Modes.{hash_of};
ghost use Rattle.b3_forest.specs.Uploads.{content_of, part_of};
ghost use Rattle.store_core.specs.Model.{AreJoined};

use crate::segments::Segments;
use b3_forest::Segment;
use std::alloc::AllocError;
use std::marker::Model;
use std::sync::Arc;
use store_books::{Address, Content};

/// Bytes that were filed at their address. In contracts an object is its bytes.
#[derive(Drop)]
pub struct Object {
    address: Address,
    len: u64,
    segments: Segments,
}

impl Model for Object {
    ghost use Rattle.std.specs.Prelude.{◌≡◌, ℕ, List, length, map};
    ghost use Rattle.b3_core.specs.Modes.{hash_of};
    ghost use Rattle.b3_forest.specs.Uploads.{content_of, part_of};
    ghost use Rattle.store_core.specs.Model.{AreJoined};

    ghost Value = { List ℕ };

    ghost view = { λ o. content_of (map part_of o.segments) };

    ghost invariant = { λ o. (o.address ≡ hash_of (content_of (map part_of o.segments)))
        × (o.len ≡ length (content_of (map part_of o.segments))) × AreJoined 0 (map part_of o.segments) };
}

impl Object {
    /// The object of these segments.
    pub(crate) fn new(address: Address, len: u64, segments: Vec<Segment>) -> Object
        requires address { address ≡ hash_of (content_of (map part_of segments.items)) }
        requires len { len ≡ length (content_of (map part_of segments.items)) }
        requires joined { AreJoined 0 (map part_of segments.items) }
        ensures { result ≡ content_of (map part_of segments.items) }
    {
        Object {
            address,
            len,
            segments: Segments::new(segments),
        }
    }

    /// The address: the BLAKE3 hash of the bytes, in hash mode.
    pub fn address(&self) -> Address
        ensures { result ≡ hash_of self.now }
    {
        self.address
    }

    /// The number of bytes.
    pub fn len(&self) -> u64
        ensures { result ≡ length self.now }
    {
        self.len
    }

    /// The bytes, in order, as the parts in which they arrived: none is empty, and each starts where the one before it ends.
    pub fn segments(&self) -> &[Segment]
        ensures bytes { content_of (map part_of result.now) ≡ self.now }
        ensures joined { AreJoined 0 (map part_of result.now) }
    {
        self.segments.as_slice()
    }

    /// Copies the bytes starting at `offset` to the front of `room`, as many as fit, and returns how many. The remaining bytes of `room`
    /// are unchanged. Time: linear in the copied bytes and in the parts before their end.
    pub fn read(&self, offset: u64, room: &mut [u8]) -> usize
        ensures count { result ≡ min (length room.old) (length self.now - offset) }
        ensures bytes { room.new ≡ take (length room.old) (drop offset self.now) ++ drop result room.old }
    {
        read_segments(self.segments.as_slice(), offset, room)
    }
}

// Copies the bytes of segments, starting at `offset`, to the front of `room`, as many as fit.
fn read_segments(segments: &[Segment], offset: u64, room: &mut [u8]) -> usize
    ensures count { result ≡ min (length room.old) (length (content_of (map part_of segments.now)) - offset) }
    ensures bytes { room.new ≡ take (length room.old) (drop offset (content_of (map part_of segments.now))) ++ drop result room.old }
{
    let mut skip = offset;
    let mut at = 0usize;
    for segment in segments {
        if at == room.len() {
            return at;
        }
        let bytes = segment.bytes.as_slice();
        at += copy_at(following(bytes, skip), room, at);
        skip = skip.saturating_sub(bytes.len() as u64);
    }
    at
}

// The bytes after the first `skip`.
fn following(bytes: &[u8], skip: u64) -> &[u8]
    ensures { result.now ≡ drop skip bytes.now }
{
    let skip = skip.min(bytes.len() as u64) as usize;
    &bytes[skip..]
}

// Copies as many bytes as fit into `room`, starting at `at`, and returns how many.
fn copy_at(bytes: &[u8], room: &mut [u8], at: usize) -> usize
    requires { at ≤ length room.old }
    ensures count { result ≡ min (length bytes.now) (length room.old - at) }
    ensures bytes { room.new ≡ take at room.old ++ (take result bytes.now ++ drop (at + result) room.old) }
{
    let count = bytes.len().min(room.len() - at);
    room[at..at + count].copy_from_slice(&bytes[..count]);
    count
}

/// An object that the store shares with those that fetched it. In contracts it is the object's bytes.
#[derive(Drop)]
pub struct SharedObject {
    object: Arc<Object>,
}

impl Model for SharedObject {
    ghost use Rattle.std.specs.Prelude.{ℕ, List};
    ghost use Rattle.std.specs.Arc.{arc_value};

    ghost Value = { List ℕ };

    ghost view = { λ s. arc_value s.object };
}

impl SharedObject {
    /// An object that may be shared.
    pub(crate) fn new(object: Arc<Object>) -> SharedObject
        ensures { result ≡ arc_value object }
    {
        SharedObject { object }
    }

    /// The object.
    pub fn object(&self) -> &Object
        ensures { result.now ≡ self.now }
    {
        &self.object
    }

    /// Another handle to the object.
    pub(crate) fn share(&self) -> Result<Arc<Object>, AllocError>
        ensures { IfOk result (λ object. arc_value object ≡ self.now) }
    {
        Arc::try_clone(&self.object)
    }

    /// The handle to the object.
    pub(crate) fn into_object(self) -> Arc<Object>
        ensures { arc_value result ≡ self }
    {
        let SharedObject { object } = self;
        object
    }
}

impl Content for SharedObject {
    ghost size = { λ bytes. length bytes };

    ghost address = { λ bytes. hash_of bytes };

    fn length(&self) -> u64 {
        self.object.len()
    }

    fn address(&self) -> Address {
        self.object.address()
    }
}
