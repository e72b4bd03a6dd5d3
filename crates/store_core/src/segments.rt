//! The segments of an object.

ghost use Rattle.std.specs.Prelude.{◌≡◌};

use b3_forest::Segment;
use std::marker::Model;
use std::slice;

// Segments, of which a single one needs no list.
#[derive(Drop)]
enum Kept {
    One(Segment),
    Many(Vec<Segment>),
}

/// The segments of an object, in order. In contracts this is their list. A single segment takes no memory beside the object's.
#[derive(Drop)]
pub(crate) struct Segments {
    kept: Kept,
}

impl Model for Segments {
    ghost use Rattle.std.specs.Prelude.{List};
    ghost use Rattle.b3_forest.specs.declared.segment.Segment.{Segment};
    ghost use Rattle.store_core.specs.inner.Segments.{kept_list};

    ghost Value = { List Segment };

    ghost view = { λ s. kept_list s.kept };
}

impl Segments {
    /// The segments in a list.
    pub(crate) fn new(list: Vec<Segment>) -> Segments
        ensures { result ≡ list.items }
    {
        let mut list = list;
        if list.len() == 1
            && let Some(segment) = list.pop()
        {
            return Segments {
                kept: Kept::One(segment),
            };
        }
        Segments {
            kept: Kept::Many(list),
        }
    }

    /// The segments.
    pub(crate) fn as_slice(&self) -> &[Segment]
        ensures { result.now ≡ self.now }
    {
        match &self.kept {
            Kept::One(segment) => slice::from_ref(segment),
            Kept::Many(list) => list.as_slice(),
        }
    }
}
