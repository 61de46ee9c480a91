// What a call refuses, with what it carries.
use crate::model::{Element, RelationId};

// The field at fault: where it starts in its file.
#[derive(Clone, Copy, PartialEq, Eq)]
pub struct Fault {
    pub offset: usize,
}

// A refusal by any call. `specs/Refusal.antt` gives the number and the carried values of each. Models, maps and sides are counted from 1,
// places from 0.
#[derive(Clone, Copy, PartialEq, Eq)]
pub enum Refusal {
    Malformed { model: u8, fault: Fault },
    NoRoom,
    NotCanonical { model: u8 },
    SignaturesDiffer,
    UnknownElement { place: usize, side: u8 },
    TypesDiffer { place: usize },
    ImageMissing(Element),
    ConflictingImages(Element),
    RelationNotKept(RelationId),
    NotAMap { map: u8 },
    OddPairs,
}
