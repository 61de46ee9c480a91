// Rows of a relation as parts of the file, compared through tables that say what each entry stands for.
ghost use Rattle.std.specs.Prelude.{◌≡◌, true, map, ◌≤◌, length, get_or};
ghost use Rattle.lists.specs.First.{firsts};
ghost use Rattle.lists.specs.Order.{same_row};
ghost use Rattle.lists.specs.Part.{over};
ghost use Rattle.stored.specs.Signature.{signature, same_signature};
ghost use Rattle.stored.specs.File.{held, listed};
ghost use Rattle.rows.specs.Rows.{through, has_row, first_unkept_by, rows_kept};

use crate::packed::rows_among;
use stored::file::File;
use stored::rows::Rows;

// What a table says of an entry; 255 where it has none.
// No Option: 255 stands for none in the bytes of a map, which C lends.
pub fn look(table: &[u8], x: usize) -> u8
    ensures { result ≡ get_or table.now x 255 }
{
    if x < table.len() { table[x] } else { 255 }
}

// Writes what a table says of each entry of a row over the front of `out`.
pub(crate) fn write_through(table: &[u8], row: &[u8], out: &mut [u8])
    requires { length row.now ≤ length out.old }
    ensures { out.new ≡ over (through table.now row.now) out.old }
{
    for (j, x) in row.iter().enumerate() {
        out[j] = look(table, *x as usize);
    }
}

// Whether a row, taken through a table, equals another, taken through another table.
pub(crate) fn agree(table: &[u8], row: &[u8], other_table: &[u8], other: &[u8]) -> bool
    ensures { result ≡ same_row (through table.now row.now) (through other_table.now other.now) }
{
    if row.len() != other.len() {
        return false;
    }
    for (j, entry) in row.iter().enumerate() {
        let other_entry = other[j];
        let x = look(table, *entry as usize);
        let y = look(other_table, other_entry as usize);
        if x != y {
            return false;
        }
    }
    true
}

// Whether a row, taken through a table, is among rows, taken through another table.
pub fn has_row(table: &[u8], row: &[u8], other_table: &[u8], rows: &Rows<'_>) -> bool
    ensures { result ≡ has_row (through table.now row.now) (map (through other_table.now) (listed rows.now)) }
{
    (0..rows.count).any(|i| agree(table, row, other_table, rows.row(i)))
}

// Whether each of some rows, taken through a table, is among others, taken through another table.
pub(crate) fn rows_kept(
    table: &[u8],
    rows: &Rows<'_>,
    other_table: &[u8],
    others: &Rows<'_>,
) -> bool
    ensures { result ≡ rows_kept table.now (listed rows.now) (map (through other_table.now) (listed others.now)) }
{
    (0..rows.count).all(|i| has_row(table, rows.row(i), other_table, others))
}

// The lowest number of a relation that is not kept when each element of the source goes to its image; the number of relations where all are
// kept.
pub(crate) fn first_unkept(source: &File<'_>, target: &File<'_>, images: &[u8]) -> usize
    requires { same_signature (signature (held source.now)) (signature (held target.now)) ≡ true }
    ensures { result ≡ first_unkept_by (held source.now) (held target.now) images.now }
{
    let roots = target.roots();
    let plain = target.is_canonical();
    for k in 0..source.relations() {
        let rows = source.rows(k);
        let others = target.rows(k);
        if !rows_among(images, &rows, plain, roots, &others) {
            return k;
        }
    }
    source.relations()
}

// How many normalised rows there are, each counted at its first appearance, found by looking back (`normalized_tuples` of model_hom.rs).
pub(crate) fn normal_count(roots: &[u8], rows: &Rows<'_>) -> usize
    ensures { result ≡ length (firsts same_row (map (through roots.now) (listed rows.now))) }
{
    let mut n = 0;
    for i in 0..rows.count {
        let before = Rows {
            cells: rows.cells,
            arity: rows.arity,
            count: i,
        };
        if !has_row(roots, rows.row(i), roots, &before) {
            n += 1;
        }
    }
    n
}
