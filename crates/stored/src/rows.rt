// Rows of one arity, each after the one before it, as they stand in a file.
ghost use Rattle.std.specs.Prelude.{◌≡◌, ℕ, ◌≤◌, ◌<◌, ◌*◌, [], length, get_or};
ghost use Rattle.lists.specs.Part.{rows_of};
ghost use Rattle.stored.specs.Relation.{entry_at};

use crate::lookup::entry;
use crate::model::Element;

// So many rows of so many entries, at the front of some cells.
#[derive(Clone, Copy)]
pub struct Rows<'a> {
    pub cells: &'a [u8],
    pub arity: usize,
    pub count: usize,
    ghost whole: { count * arity ≤ length cells.now },
    ghost bytes: { (i : ℕ) → get_or cells.now i 0 < 256 },
}

impl<'a> Rows<'a> {
    // The row of a number, counted from 0.
    pub fn row(&self, i: usize) -> &'a [u8]
        requires { i < self.now.count }
        ensures { result.now ≡ get_or (rows_of self.now.arity self.now.count self.now.cells.now) i [] }
    {
        let start = i * self.arity;
        let end = start + self.arity;
        &self.cells[start..end]
    }

    // An entry of a row, both counted from 0.
    pub fn entry(&self, i: usize, column: usize) -> Element
        requires { (i < self.now.count) × (column < self.now.arity) }
        ensures { result.0 ≡ entry_at self.now.arity self.now.cells.now i column }
    {
        entry(self.cells, self.arity, i, column)
    }
}
