//! Totals of a store.

ghost use Rattle.std.specs.Prelude.{Some};
ghost use Rattle.store_books.specs.Totals.{totals_text};

use std::fmt;

/// The numbers of objects and open uploads, the bytes of the objects, and the bytes and the number of the parts that open uploads hold.
#[derive(Clone, Copy, Debug, PartialEq, Eq)]
pub struct Totals {
    pub objects: u64,
    pub object_bytes: u64,
    pub uploads: u64,
    pub held_bytes: u64,
    pub parts: u64,
}

/// One line, without its newline: `objects O bytes B uploads U held H parts P`.
impl fmt::Display for Totals {
    ghost output = { λ totals. Some (totals_text totals) };

    fn fmt<W: fmt::Write>(&self, f: &mut fmt::Formatter<W>) -> fmt::Result {
        let Totals {
            objects,
            object_bytes,
            uploads,
            held_bytes,
            parts,
        } = self;
        write!(
            f,
            "objects {objects} bytes {object_bytes} uploads {uploads} held {held_bytes} parts {parts}"
        )
    }
}
