//! Bytes in stretches of one length, which the parts of an upload share.

ghost use Rattle.std.specs.Prelude.{◌≡◌, ◌==◌, ◌%◌, ◌<◌, ◌≤◌, ◌++◌, [], IfNone, IfOk, IfSome, length};
ghost use Rattle.b3_forest.specs.Stretches.{AreBytesFrom, StandsAt, left_of_stretch, stretch_bytes};

use std::alloc::{AllocError, Global};
use std::marker::Model;
use std::sync::Arc;

/// Bytes in stretches of one length; the last one may be shorter. The parts of an upload share the stretches.
#[derive(Drop)]
pub struct Stretches {
    stretch_len: usize,
    len: u64,
    full: Vec<Arc<Vec<u8>>>,
    last: Arc<Vec<u8>>,
}

impl Model for Stretches {
    ghost use Rattle.std.specs.Prelude.{◌≡◌, ◌<◌, ◌≤◌, length};
    ghost use Rattle.b3_forest.specs.Stretches.{AreFull, ModelStretches, stretch_bytes, stretched};

    ghost Value = { ModelStretches };

    ghost view = { λ s. stretched s.stretch_len s.full.items (stretch_bytes s.last) };

    ghost invariant = { λ s. (0 < s.stretch_len) × AreFull s.stretch_len s.full.items
        × (length (stretched s.stretch_len s.full.items (stretch_bytes s.last)).bytes ≡ s.len) × (length (stretch_bytes s.last) ≤ s.stretch_len) };
}

impl Stretches {
    /// The number of bytes.
    pub fn len(&self) -> u64
        ensures { result ≡ length self.now.bytes }
    {
        self.len
    }

    /// Whether there are no bytes.
    pub fn is_empty(&self) -> bool
        ensures { result ≡ (length self.now.bytes == 0) }
    {
        self.len == 0
    }

    /// The bytes from offset `at` to the end of their stretch; empty if there are no bytes there.
    pub fn bytes_from(&self, at: u64) -> &[u8]
        ensures found { AreBytesFrom self.now.bytes at result.now }
        ensures len { length result.now ≡ left_of_stretch self.now at }
    {
        let number = at / self.stretch_len as u64;
        let full = self.full.len() as u64;
        if number < full {
            let skip = at % self.stretch_len as u64;
            return &self.full[number as usize].as_slice()[skip as usize..];
        }
        let skip = at - full * self.stretch_len as u64;
        if skip < self.last.len() as u64 {
            &self.last.as_slice()[skip as usize..]
        } else {
            &[]
        }
    }

    /// The stretch that starts at `offset`, if there is a nonempty one.
    pub fn begun_at(&self, offset: u64) -> Option<&Arc<Vec<u8>>>
        ensures stands { IfSome result (λ a. StandsAt self.now.bytes offset (stretch_bytes a.now)) }
        ensures whole { IfSome result (λ a. (offset % self.now.each ≡ 0) × (length (stretch_bytes a.now) ≡ left_of_stretch self.now offset)) }
        ensures some { IfSome result (λ a. 0 < length (stretch_bytes a.now)) }
        ensures none { IfNone result (offset % self.now.each ≡ 0 → length self.now.bytes ≤ offset) }
    {
        if self.len <= offset || offset % self.stretch_len as u64 != 0 {
            return None;
        }
        let number = offset / self.stretch_len as u64;
        if number < self.full.len() as u64 {
            Some(&self.full[number as usize])
        } else {
            Some(&self.last)
        }
    }
}

/// Gathers bytes in stretches.
#[derive(Drop)]
pub struct StretchesBuilder {
    stretch_len: usize,
    full: Vec<Arc<Vec<u8>>>,
    last: Vec<u8>,
}

impl Model for StretchesBuilder {
    ghost use Rattle.std.specs.Prelude.{◌<◌, ◌≤◌, vec_len};
    ghost use Rattle.b3_forest.specs.Stretches.{AreFull, ModelStretches, stretched};

    ghost Value = { ModelStretches };

    ghost view = { λ s. stretched s.stretch_len s.full.items s.last.items };

    ghost invariant = { λ s. (0 < s.stretch_len) × AreFull s.stretch_len s.full.items × (vec_len s.last ≤ s.stretch_len) };
}

impl StretchesBuilder {
    /// Starts stretches of `stretch_len` bytes, and allocates the first.
    pub fn new(alloc: Global, stretch_len: usize) -> Result<StretchesBuilder, AllocError>
        requires { 0 < stretch_len }
        ensures { IfOk result (λ gathered. gathered ≡ record { each = stretch_len; bytes = [] }) }
    {
        let last = Vec::with_capacity(alloc, stretch_len)?;
        Ok(StretchesBuilder {
            stretch_len,
            full: Vec::new(alloc),
            last,
        })
    }

    /// Appends `bytes`. Each stretch is allocated before its first byte is added.
    pub fn with(self, alloc: Global, bytes: &[u8]) -> Result<StretchesBuilder, AllocError>
        ensures { IfOk result (λ gathered. gathered ≡ record { each = self.each; bytes = self.bytes ++ bytes.now }) }
    {
        let StretchesBuilder {
            stretch_len,
            full,
            last,
        } = self;
        let (mut full, mut last) = (full, last);
        let mut rest = bytes;
        while !rest.is_empty() {
            if last.len() >= stretch_len {
                let Ok(stretch) = Arc::new(alloc, last) else {
                    return Err(AllocError);
                };
                full.push(stretch)?;
                last = Vec::with_capacity(alloc, stretch_len)?;
            }
            let (front, following) = rest.split_at(rest.len().min(stretch_len - last.len()));
            last.extend_from_slice(front)?;
            rest = following;
        }
        Ok(StretchesBuilder {
            stretch_len,
            full,
            last,
        })
    }

    /// Appends `bytes`. If a stretch can begin with them and they fit in it, their memory becomes the stretch; otherwise they are copied.
    pub fn with_owned(self, alloc: Global, bytes: Vec<u8>) -> Result<StretchesBuilder, AllocError>
        ensures { IfOk result (λ gathered. gathered ≡ record { each = self.each; bytes = self.bytes ++ bytes.items }) }
    {
        let is_begun = !self.last.is_empty() && self.last.len() < self.stretch_len;
        if is_begun || bytes.len() > self.stretch_len {
            return self.with(alloc, bytes.as_slice());
        }
        let StretchesBuilder {
            stretch_len,
            full,
            last,
        } = self;
        let mut full = full;
        if !last.is_empty() {
            let Ok(stretch) = Arc::new(alloc, last) else {
                return Err(AllocError);
            };
            full.push(stretch)?;
        }
        Ok(StretchesBuilder {
            stretch_len,
            full,
            last: bytes,
        })
    }

    /// The finished stretches.
    pub fn finish(self, alloc: Global) -> Result<Stretches, AllocError>
        ensures { IfOk result (λ stretches. stretches ≡ self) }
    {
        let StretchesBuilder {
            stretch_len,
            full,
            last,
        } = self;
        let Some(before) = (full.len() as u64).checked_mul(stretch_len as u64) else {
            return Err(AllocError);
        };
        let Some(len) = before.checked_add(last.len() as u64) else {
            return Err(AllocError);
        };
        match Arc::new(alloc, last) {
            Ok(last) => Ok(Stretches {
                stretch_len,
                len,
                full,
                last,
            }),
            Err(_) => Err(AllocError),
        }
    }
}
