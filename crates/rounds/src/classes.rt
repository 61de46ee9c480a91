// Classes of one colour: the smallest that is open, the lowest element of one.
ghost use Rattle.std.specs.Prelude.{◌≡◌, List, ℕ, ◌≤◌, length};
ghost use Rattle.lists.specs.First.{lowest};
ghost use Rattle.stored.specs.Limits.{max_elements};
ghost use Rattle.stored.specs.Model.{size};
ghost use Rattle.stored.specs.File.{held};
ghost use Rattle.rounds.specs.Round.{reps, colours_of};
ghost use Rattle.rounds.specs.Classes.{open_of, smallest_from, smallest_open, lowest_of};
ghost use Rattle.rounds.specs.Parts.{reps_in, colours_in, CountsOf, has_colour, smallest_with};

use crate::colour::Colour;
use crate::colours::colour_at;
use crate::counts::count_at;
use stored::canonical::is_rep;
use stored::file::File;

// How many representatives there are.
fn rep_count(roots: &[u8]) -> usize
    ensures { result ≡ length (reps_in roots.now) }
{
    let mut n: usize = 0;
    for x in 0..roots.len() {
        if is_rep(roots, x) {
            n += 1;
        }
    }
    n
}

// How many classes a model has.
pub fn class_count(file: &File<'_>) -> usize
    ensures { result ≡ length (reps (held file.now)) }
{
    rep_count(file.roots())
}

// The smallest open class of the colours from k on, given how many have each and that of those after k. Of two as large the first is taken.
fn smallest_with(table: &[u8], k: u16, later: Option<Colour>) -> Option<Colour>
    ensures { (colours : List ℕ) → CountsOf table.now colours → open_of result ≡ smallest_with colours k (open_of later) }
{
    let n = count_at(table, k);
    if n < 2 {
        return later;
    }
    match later {
        None => Some(Colour(k)),
        Some(other) => {
            let other_n = count_at(table, other.0);
            if n <= other_n {
                return Some(Colour(k));
            }
            Some(other)
        }
    }
}

// The smallest open class of one side, given how many have each colour; the colours are taken from the highest down.
fn smallest_in(roots: &[u8], table: &[u8]) -> Option<Colour>
    requires { (length roots.now ≤ max_elements) × (length table.now ≡ 128) }
    ensures { (colours : List ℕ) → CountsOf table.now (colours_in roots.now colours) → open_of result ≡ smallest_from (colours_in roots.now colours) 0 (length (colours_in roots.now colours)) }
{
    let mut answer = None;
    for k in (0..rep_count(roots)).rev() {
        if 1 < table[k] {
            answer = smallest_with(table, k as u16, answer);
        }
    }
    answer
}

// The smallest class with two or more members, of those as large that of the lowest colour, given how many have each colour.
pub fn smallest_open(file: &File<'_>, table: &[u8]) -> Option<Colour>
    requires { length table.now ≡ 128 }
    ensures { (colours : List ℕ) → CountsOf table.now (colours_of (held file.now) colours) → open_of result ≡ smallest_open (held file.now) colours }
{
    smallest_in(file.roots(), table)
}

// The lowest representative of a colour; the number of elements where there is none.
pub fn lowest_in(roots: &[u8], colours: &[u16], k: u16) -> usize
    ensures { result ≡ lowest (has_colour roots.now colours.now k) 0 (length roots.now) }
{
    (0..roots.len())
        .find(|x| is_rep(roots, *x) && colour_at(colours, *x) == k)
        .unwrap_or(roots.len())
}

// The lowest representative of a colour.
pub fn lowest_of(file: &File<'_>, colours: &[u16], k: Colour) -> usize
    requires { length colours.now ≡ size (held file.now) }
    ensures { result ≡ lowest_of (held file.now) colours.now k.0 }
{
    lowest_in(file.roots(), colours, k.0)
}
