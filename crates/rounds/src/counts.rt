// How many representatives have each colour, and how many colours there are.
ghost use Rattle.std.specs.Prelude.{◌≡◌, true, ◌≤◌, length, get_or};
ghost use Rattle.lists.specs.Every.{how_many};
ghost use Rattle.lists.specs.Numbers.{up_from};
ghost use Rattle.stored.specs.Limits.{max_elements};
ghost use Rattle.stored.specs.Model.{size};
ghost use Rattle.stored.specs.File.{held};
ghost use Rattle.rounds.specs.Round.{colours_of, colour_count, equal_counts};
ghost use Rattle.rounds.specs.Parts.{colours_in, are_small, CountsOf, is_filled};

use crate::colours::colour_at;
use stored::canonical::is_rep;
use stored::file::File;

// A table with a count for each colour below 128.
pub type Counts = [u8; 128];

// How many representatives have each colour.
pub(crate) fn counts_in(roots: &[u8], colours: &[u16]) -> Counts
    requires { (length roots.now ≤ max_elements) × (are_small (colours_in roots.now colours.now) ≡ true) }
    ensures { CountsOf result (colours_in roots.now colours.now) }
{
    let mut table = [0; 128];
    for x in 0..roots.len() {
        if is_rep(roots, x) {
            let k = colour_at(colours, x) as usize;
            table[k] += 1;
        }
    }
    table
}

// The count of a colour; 0 past the last.
pub(crate) fn count_at(table: &[u8], k: u16) -> u8
    ensures { result ≡ get_or table.now k 0 }
{
    let i = k as usize;
    if i < table.len() { table[i] } else { 0 }
}

// How many entries of a table are not 0.
fn filled(table: &[u8]) -> u8
    requires { length table.now ≤ 128 }
    ensures { result ≡ how_many (is_filled table.now) (up_from 0 (length table.now)) }
{
    let mut n = 0;
    for count in table {
        if *count != 0 {
            n += 1;
        }
    }
    n
}

// What counting both sides comes to: whether each colour has as many representatives on both, how many colours the left has, and how many of its
// representatives have each.
// No Option: the count and the table hold where the sides differ too, as the clauses of `count_both` say.
#[derive(Clone, Copy)]
pub struct Balance {
    pub equal: bool,
    pub count: usize,
    pub table: Counts,
}

// Counts the colours of both sides, each side once.
pub fn count_both(
    left: &File<'_>,
    right: &File<'_>,
    left_colours: &[u16],
    right_colours: &[u16],
) -> Balance
    requires { (length left_colours.now ≡ size (held left.now)) × (length right_colours.now ≡ size (held right.now)) × (are_small (colours_of (held left.now) left_colours.now) ≡ true) × (are_small (colours_of (held right.now) right_colours.now) ≡ true) }
    ensures equal { result.equal ≡ equal_counts (held left.now) (held right.now) (record { left = left_colours.now; right = right_colours.now }) }
    ensures count { result.count ≡ colour_count (held left.now) left_colours.now }
    ensures table { CountsOf result.table (colours_of (held left.now) left_colours.now) }
{
    let left_counts = counts_in(left.roots(), left_colours);
    let right_counts = counts_in(right.roots(), right_colours);
    let count = filled(&left_counts) as usize;
    Balance {
        equal: left_counts == right_counts,
        count,
        table: left_counts,
    }
}

// How many different colours the representatives of a side have.
pub fn colour_count(file: &File<'_>, colours: &[u16]) -> usize
    requires { (length colours.now ≡ size (held file.now)) × (are_small (colours_of (held file.now) colours.now) ≡ true) }
    ensures { result ≡ colour_count (held file.now) colours.now }
{
    let counts = counts_in(file.roots(), colours);
    filled(&counts) as usize
}
