// The value of a Relation: arity, columns, row count and rows. Rows are handed on as the part that starts after the column types and count.
ghost use Rattle.std.specs.Prelude.{◌≡◌, ◌≤◌, ◌+◌, ◌*◌, length};
ghost use Rattle.lists.specs.Every.{all};
ghost use Rattle.lists.specs.Numbers.{sum};
ghost use Rattle.lists.specs.Order.{row_before, ascending};
ghost use Rattle.lists.specs.Part.{rows_of};
ghost use Rattle.stored.specs.Limits.{max_types};
ghost use Rattle.stored.specs.Relation.{column_holds, entry_typed, row_typed, shape_of, Shaped, rows_hold, head_of};

use crate::field::word;
use crate::lookup::row;
use crate::model::{Element, TypeId};
use crate::types::{total, type_in};

// The arity and the row count of a value that keeps the rules.
#[derive(Clone, Copy)]
pub struct Shape {
    pub arity: usize,
    pub count: usize,
}

// Whether each column has the number of a type.
fn columns_hold(types: &[u8], columns: &[u8]) -> bool
    ensures { result ≡ all (column_holds types.now) columns.now }
{
    columns.iter().all(|c| usize::from(*c) < types.len())
}

// Whether an entry is one of the n elements, of its column's type.
#[tactic(auto, unfolding(crate::specs::Relation::entry_typed))]
fn entry_typed(types: &[u8], n: usize, column: u8, x: u8) -> bool
    requires { (length types.now ≤ max_types) × (n ≡ sum types.now) }
    ensures { result ≡ entry_typed types.now column x }
{
    usize::from(x) < n && type_in(types, Element(u16::from(x))) == TypeId(u16::from(column))
}

// Whether the entries of a row have their columns' types.
fn row_typed(types: &[u8], n: usize, columns: &[u8], row: &[u8]) -> bool
    requires { (length types.now ≤ max_types) × (n ≡ sum types.now) × (length columns.now ≡ length row.now) }
    ensures { result ≡ row_typed types.now columns.now row.now }
{
    for (j, column) in columns.iter().enumerate() {
        if !entry_typed(types, n, *column, row[j]) {
            return false;
        }
    }
    true
}

// Whether the entries of every row have their columns' types.
fn rows_typed(types: &[u8], n: usize, columns: &[u8], rows: &[u8], count: usize) -> bool
    requires { (length types.now ≤ max_types) × (n ≡ sum types.now) × (count * length columns.now ≤ length rows.now) }
    ensures { result ≡ all (row_typed types.now columns.now) (rows_of (length columns.now) count rows.now) }
{
    let arity = columns.len();
    (0..count).all(|i| row_typed(types, n, columns, row(rows, arity, i)))
}

// Whether a row stands strictly before another, first column first.
pub(crate) fn row_before(a: &[u8], b: &[u8]) -> bool
    ensures { result ≡ row_before a.now b.now }
{
    for (j, x) in a.iter().enumerate() {
        if b.len() <= j {
            return false;
        }
        if *x != b[j] {
            return *x < b[j];
        }
    }
    a.len() < b.len()
}

// Whether each row stands strictly before the next.
fn rows_ascend(rows: &[u8], arity: usize, count: usize) -> bool
    requires { count * arity ≤ length rows.now }
    ensures { result ≡ ascending (rows_of arity count rows.now) }
{
    (1..count).all(|i| row_before(row(rows, arity, i - 1), row(rows, arity, i)))
}

// Whether the numbers of a value keep the rules: an arity within the limit, the length that arity and row count ask for, no more cells than
// there is room for, and at most one row where there is no column.
#[tactic(auto, unfolding(crate::specs::Relation::shape_of, crate::specs::Relation::head_if, crate::specs::Relation::shape_holds))]
fn shape_of(room: usize, v: &[u8]) -> Option<Shape>
    ensures { result ≡ shape_of room v.now }
{
    if v.is_empty() {
        return None;
    }
    let arity = usize::from(v[0]);
    if 8 < arity {
        return None;
    }
    if v.len() < 3 + arity {
        return None;
    }
    let count = word(v[1 + arity], v[2 + arity]);
    let cells = count * arity;
    if v.len() - (3 + arity) != cells {
        return None;
    }
    if room < cells {
        return None;
    }
    if arity == 0 && 1 < count {
        return None;
    }
    Some(Shape { arity, count })
}

// Whether the columns and rows of a value keep the rules.
#[tactic(auto, using(crate::proofs::Laws::Relation::handed), unfolding(crate::specs::Relation::rows_hold))]
fn rows_hold(types: &[u8], v: &[u8], arity: usize, count: usize) -> bool
    requires { (length types.now ≤ max_types) × Shaped v.now arity count }
    ensures { result ≡ rows_hold types.now v.now }
{
    let columns = &v[1..1 + arity];
    let rows = &v[3 + arity..];
    columns_hold(types, columns)
        && rows_typed(types, total(types), columns, rows, count)
        && rows_ascend(rows, arity, count)
}

// The arity and the row count of a value that keeps the rules.
#[tactic(auto, using(crate::proofs::Laws::Relation::heads))]
pub(crate) fn relation(types: &[u8], room: usize, v: &[u8]) -> Option<Shape>
    requires { length types.now ≤ max_types }
    ensures { result ≡ head_of types.now room v.now }
{
    let found = shape_of(room, v)?;
    if !rows_hold(types, v, found.arity, found.count) {
        return None;
    }
    Some(found)
}
