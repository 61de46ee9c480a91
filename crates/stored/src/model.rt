// The numbers of types, relations and elements. Each has a type of its own, so that none can stand for another.

// A type, by its number (`TypeId` of signature.rs).
#[derive(Clone, Copy, PartialEq, Eq)]
pub struct TypeId(pub u16);

// A relation, by its number (`RelationId` of signature.rs).
#[derive(Clone, Copy, PartialEq, Eq)]
pub struct RelationId(pub u16);

// An element, by its number in the file.
#[derive(Clone, Copy, PartialEq, Eq)]
pub struct Element(pub u16);
