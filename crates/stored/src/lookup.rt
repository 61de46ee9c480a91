// Looking up what the model in a file says: of an element or a row, and its parts.
ghost use Rattle.std.specs.Prelude.{◌≡◌, ℕ, ◌<◌, ◌≤◌, ◌+◌, ◌*◌, length, get_or, drop};
ghost use Rattle.lists.specs.Part.{part};
ghost use Rattle.stored.specs.Model.{size, root_of, type_of, relation_at};
ghost use Rattle.stored.specs.Relation.{entry_at};
ghost use Rattle.stored.specs.Layout.{roots_start};
ghost use Rattle.stored.specs.Reading.{Holds, model_of};
ghost use Rattle.stored.specs.File.{held, listed};

use crate::file::File;
use crate::model::{Element, TypeId};
use crate::rows::Rows;
use crate::types::type_in;

// The representative of an element, in a file whose roots start at `roots` (`root` of unification.rs).
#[tactic(auto, using(crate::proofs::Laws::Lookup::roots_fit, crate::proofs::Laws::Lookup::root_there))]
pub fn root_of(s: &[u8], roots: usize, e: Element) -> Element
    requires { Holds s.now × (roots ≡ roots_start (model_of s.now)) × (e.0 < size (model_of s.now)) }
    ensures { result.0 ≡ root_of (model_of s.now) e.0 }
{
    let at = roots + usize::from(e.0);
    Element(u16::from(s[at]))
}

// The type of an element, in a file with `types` types; the number of types for what is no element.
#[tactic(auto, using(crate::proofs::Laws::Lookup::roots_fit, crate::proofs::Laws::Lookup::types_between, crate::proofs::Laws::Lookup::few_types))]
pub fn type_of(s: &[u8], types: usize, e: Element) -> TypeId
    requires { Holds s.now × (types ≡ length (model_of s.now).sizes) }
    ensures { result.0 ≡ type_of (model_of s.now) e.0 }
{
    let end = 3 + types;
    type_in(&s[3..end], e)
}

// Row i, counted from 0, of some rows that stand one after the other.
pub(crate) fn row(rows: &[u8], arity: usize, i: usize) -> &[u8]
    requires { i * arity + arity ≤ length rows.now }
    ensures is { result.now ≡ part rows.now (i * arity) arity }
    ensures long { length result.now ≡ arity }
{
    let start = i * arity;
    let end = start + arity;
    &rows[start..end]
}

// An entry of a row, both counted from 0, in the part of a file that starts with a relation's rows.
pub fn entry(rows: &[u8], arity: usize, row: usize, column: usize) -> Element
    requires { (row * arity + arity ≤ length rows.now) × (column < arity) }
    ensures { result.0 ≡ entry_at arity rows.now row column }
{
    let at = row * arity + column;
    Element(u16::from(rows[at]))
}

// What stands in a file from an offset on.
fn rest(s: &[u8], start: usize) -> &[u8]
    requires { start ≤ length s.now }
    ensures same { result.now ≡ drop start s.now }
    ensures bytes { (i : ℕ) → get_or result.now i 0 < 256 }
{
    &s[start..]
}

impl<'a> File<'a> {
    // How many elements there are of each type.
    pub fn types(&self) -> &'a [u8]
        ensures { result.now ≡ (held self.now).sizes }
    {
        let end = 3 + self.layout.types;
        &self.bytes[3..end]
    }

    // The representative of each element.
    pub fn roots(&self) -> &'a [u8]
        ensures { result.now ≡ (held self.now).roots }
    {
        let start = self.layout.roots;
        let end = start + self.layout.size;
        &self.bytes[start..end]
    }

    // How many elements there are.
    pub fn size(&self) -> usize
        ensures { result ≡ size (held self.now) }
    {
        self.layout.size
    }

    // How many relations there are.
    pub fn relations(&self) -> usize
        ensures { result ≡ length (held self.now).relations }
    {
        self.layout.relations
    }

    // The types of a relation's columns. They stand just before the two bytes of its row count, and those just before its rows.
    pub fn columns(&self, k: usize) -> &'a [u8]
        requires { k < length (held self.now).relations }
        ensures { result.now ≡ (relation_at (held self.now) k).columns }
    {
        let end = self.layout.rows[k] - 2;
        let start = end - self.layout.arity[k];
        &self.bytes[start..end]
    }

    // The rows of a relation.
    pub fn rows(&self, k: usize) -> Rows<'a>
        requires { k < length (held self.now).relations }
        ensures arity { result.arity ≡ length (relation_at (held self.now) k).columns }
        ensures rows { listed result ≡ (relation_at (held self.now) k).rows }
    {
        Rows {
            cells: rest(self.bytes, self.layout.rows[k]),
            arity: self.layout.arity[k],
            count: self.layout.count[k],
        }
    }

    // The representative of an element.
    pub fn root_of(&self, e: Element) -> Element
        requires { e.0 < size (held self.now) }
        ensures { result.0 ≡ root_of (held self.now) e.0 }
    {
        root_of(self.bytes, self.layout.roots, e)
    }

    // The type of an element; the number of types for what is no element.
    pub fn type_of(&self, e: Element) -> TypeId
        ensures { result.0 ≡ type_of (held self.now) e.0 }
    {
        type_of(self.bytes, self.layout.types, e)
    }
}
