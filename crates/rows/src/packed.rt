// Rows that ascend, each as one number, looked up by halving.
ghost use Rattle.std.specs.Prelude.{◌≡◌, true, map, ◌≤◌, length};
ghost use Rattle.lists.specs.First.{firsts};
ghost use Rattle.lists.specs.Numbers.{up_from};
ghost use Rattle.lists.specs.Order.{same_row, ascending};
ghost use Rattle.stored.specs.Limits.{max_arity};
ghost use Rattle.stored.specs.File.{listed};
ghost use Rattle.rows.specs.Rows.{through, has_row, rows_kept};
ghost use Rattle.rows.specs.Packed.{packed, has_number, start_at, Between};

use crate::rows::{look, normal_count, rows_kept};
use stored::rows::Rows;

// The number of a row.
fn number_of(row: &[u8]) -> u64
    requires { length row.now ≤ max_arity }
    ensures { result ≡ packed row.now }
{
    let mut number = 0;
    for x in row {
        number = number * 256 + *x as u64;
    }
    number
}

// The number of a row that is taken through a table.
fn number_through(table: &[u8], row: &[u8]) -> u64
    requires { length row.now ≤ max_arity }
    ensures { result ≡ packed (through table.now row.now) }
{
    let mut number = 0;
    for x in row {
        number = number * 256 + look(table, *x as usize) as u64;
    }
    number
}

// Whether a number is that of one of some rows that ascend. Those that may have it stand between two places; they are halved until one is left.
fn has_number(rows: &Rows<'_>, from: usize, to: usize, number: u64) -> bool
    requires { (rows.now.arity ≤ max_arity) × (ascending (listed rows.now) ≡ true) × (to ≤ rows.now.count) × Between number (listed rows.now) from to }
    ensures { result ≡ has_number number (listed rows.now) }
{
    if to <= from {
        return false;
    }
    let mut first = from;
    let mut left = to - from;
    // halves the range, no index is counted
    while 1 < left {
        let half = left / 2;
        let middle = first + half;
        let there = number_of(rows.row(middle));
        if there <= number {
            first = middle;
        }
        left -= half;
    }
    number_of(rows.row(first)) == number
}

// The first of some rows that ascend whose first entry is at least x.
fn first_from(rows: &Rows<'_>, x: usize) -> usize
    requires { (1 ≤ rows.now.arity) × (ascending (listed rows.now) ≡ true) }
    ensures { result ≡ start_at (listed rows.now) x }
{
    let mut first: usize = 0;
    let mut left = rows.count;
    // halves the range, no index is counted
    while 0 < left {
        let rest = left / 2;
        let middle = first + (left - rest);
        let entry = rows.entry(middle - 1, 0).0 as usize;
        if entry < x {
            first = middle;
        }
        left = rest;
    }
    first
}

// Where the rows of each first entry start, and where those of the last end.
pub type Starts = [usize; 65];

fn row_starts(rows: &Rows<'_>) -> Starts
    requires { (1 ≤ rows.now.arity) × (ascending (listed rows.now) ≡ true) }
    ensures { result ≡ map (start_at (listed rows.now)) (up_from 0 65) }
{
    let mut starts = [0; 65];
    for x in 0..65 {
        starts[x] = first_from(rows, x);
    }
    starts
}

// Whether a row, taken through a table, is among others that ascend: it is looked up among those with its first entry.
fn is_found(table: &[u8], row: &[u8], starts: &Starts, others: &Rows<'_>) -> bool
    requires { (1 ≤ others.now.arity) × (others.now.arity ≤ max_arity) × (length row.now ≡ others.now.arity) × (ascending (listed others.now) ≡ true) × (starts.now ≡ map (start_at (listed others.now)) (up_from 0 65)) }
    ensures { result ≡ has_row (through table.now row.now) (listed others.now) }
{
    let number = number_through(table, row);
    let first = look(table, row[0] as usize) as usize;
    if 64 <= first {
        return has_number(others, 0, others.count, number);
    }
    let from = starts[first];
    let to = starts[first + 1];
    has_number(others, from, to, number)
}

// Whether each of some rows, taken through a table, is among others, which ascend. Both are of one arity, with some column.
pub(crate) fn rows_found(table: &[u8], rows: &Rows<'_>, others: &Rows<'_>) -> bool
    requires { (1 ≤ rows.now.arity) × (rows.now.arity ≤ max_arity) × (others.now.arity ≡ rows.now.arity) × (ascending (listed others.now) ≡ true) }
    ensures { result ≡ rows_kept table.now (listed rows.now) (listed others.now) }
{
    let starts = row_starts(others);
    (0..rows.count).all(|i| is_found(table, rows.row(i), &starts, others))
}

// Whether each of some rows, taken through a table, is among the normalised rows of a relation. Where that holds no alias (`plain`) its rows are
// their own normal form, and they ascend.
pub fn rows_among(
    table: &[u8],
    rows: &Rows<'_>,
    plain: bool,
    roots: &[u8],
    others: &Rows<'_>,
) -> bool
    requires { (rows.now.arity ≤ max_arity) × (others.now.arity ≡ rows.now.arity) × (ascending (listed others.now) ≡ true) × (plain ≡ true → map (through roots.now) (listed others.now) ≡ listed others.now) }
    ensures { result ≡ rows_kept table.now (listed rows.now) (map (through roots.now) (listed others.now)) }
{
    if plain {
        if 0 < rows.arity {
            return rows_found(table, rows, others);
        }
    }
    rows_kept(table, rows, roots, others)
}

// How many normalised rows a relation has: as many as rows where it holds no alias (`plain`), since rows that ascend are all different.
pub(crate) fn rows_counted(plain: bool, roots: &[u8], rows: &Rows<'_>) -> usize
    requires { (ascending (listed rows.now) ≡ true) × (plain ≡ true → map (through roots.now) (listed rows.now) ≡ listed rows.now) }
    ensures { result ≡ length (firsts same_row (map (through roots.now) (listed rows.now))) }
{
    if plain {
        return rows.count;
    }
    normal_count(roots, rows)
}
