//! A part's bytes, as an upload keeps them.

ghost use Rattle.std.specs.Prelude.{Some};
ghost use Rattle.b3_forest.specs.Texts.{segment_text};
ghost use Rattle.b3_forest.specs.Uploads.{part_of};

use std::fmt;
use std::sync::Arc;

/// The bytes of one part, and their offset in the upload.
#[derive(Drop)]
pub struct Segment {
    /// The offset of the bytes.
    pub offset: u64,
    /// The bytes.
    pub bytes: Arc<Vec<u8>>,
}

/// Shows the offset and the number of bytes.
impl fmt::Debug for Segment {
    ghost debug_output = { λ segment. Some (segment_text (part_of segment)) };

    fn fmt<W: fmt::Write>(&self, f: &mut fmt::Formatter<W>) -> fmt::Result {
        let offset = self.offset;
        let len = self.bytes.len();
        write!(f, "Segment {{ offset: {offset}, bytes: {len} }}")
    }
}
