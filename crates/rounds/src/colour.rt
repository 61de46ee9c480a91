// A colour, by its number. It is no element, type or relation, so it can't index rows.

// The number of a colour.
#[derive(Clone, Copy, PartialEq, Eq)]
pub struct Colour(pub u16);
