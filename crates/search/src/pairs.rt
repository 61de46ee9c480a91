// Fixed pairs: whether they hold, the partner of each element, and the pairs that a base gives.
ghost use Rattle.std.specs.Prelude.{◌≡◌, ◌≤◌, ◌<◌, ◌*◌, length, Ok};
ghost use Rattle.lists.specs.Every.{keep};
ghost use Rattle.lists.specs.Numbers.{up_from};
ghost use Rattle.lists.specs.Part.{over};
ghost use Rattle.stored.specs.Model.{size, is_rep_in};
ghost use Rattle.stored.specs.File.{held};
ghost use Rattle.rows.specs.Pairs.{pair_count};
ghost use Rattle.search.specs.Partners.{pairs_from, partners_from, partners_by};
ghost use Rattle.search.specs.Find.{pairs_under};

use rows::pairs::{conflict, pair_at};
use rows::rows::look;
use stored::canonical::is_rep;
use stored::file::File;
use stored::refusal::Refusal;

// Whether all pairs are good; otherwise what is wrong with the first that is not.
pub(crate) fn pairs_hold(left: &File<'_>, right: &File<'_>, pairs: &[u8]) -> Result<(), Refusal>
    ensures { result ≡ pairs_from (pair_count pairs.now) (held left.now) (held right.now) pairs.now 0 }
{
    let types = left.types();
    let other_types = right.types();
    let n = left.size();
    let other_n = right.size();
    for place in 0..pairs.len() / 2 {
        pair_at(types, n, other_types, other_n, pairs, place)?;
    }
    Ok(())
}

// Writes the partner of each element on either side, over those written before; answers false where an element is paired with two.
// A bool is the plainer form: what is written is lent by the caller, who asks only whether it was.
pub(crate) fn give_partners(
    left: &File<'_>,
    right: &File<'_>,
    pairs: &[u8],
    to_right: &mut [u8],
    to_left: &mut [u8],
) -> bool
    requires { (pairs_from (pair_count pairs.now) (held left.now) (held right.now) pairs.now 0 ≡ Ok tt) × (length to_right.old ≡ size (held left.now)) × (length to_left.old ≡ size (held right.now)) }
    ensures { partners_by result to_right.new to_left.new ≡ partners_from (pair_count pairs.now) (held left.now) (held right.now) pairs.now 0 to_right.old to_left.old }
{
    let roots = left.layout.roots;
    let other_roots = right.layout.roots;
    for place in 0..pairs.len() / 2 {
        let x = left.bytes[roots + pairs[2 * place] as usize];
        let y = right.bytes[other_roots + pairs[2 * place + 1] as usize];
        if conflict(to_right, x as usize, y) {
            return false;
        }
        if conflict(to_left, y as usize, x) {
            return false;
        }
        to_right[x as usize] = y;
        to_left[y as usize] = x;
    }
    true
}

// Writes the pairs that a base gives over the front of `out`, each of its representatives' two images; answers how many bytes they are.
pub(crate) fn write_pairs_under(
    roots: &[u8],
    to_left: &[u8],
    to_right: &[u8],
    out: &mut [u8],
) -> usize
    requires { 2 * length roots.now ≤ length out.old }
    ensures output { out.new ≡ over (pairs_under to_left.now to_right.now (keep (is_rep_in roots.now) (up_from 0 (length roots.now)))) out.old }
    ensures count { result ≡ length (pairs_under to_left.now to_right.now (keep (is_rep_in roots.now) (up_from 0 (length roots.now)))) }
{
    let mut n: usize = 0;
    for x in 0..roots.len() {
        if is_rep(roots, x) {
            let y = look(to_left, x);
            let z = look(to_right, x);
            out[n] = y;
            out[n + 1] = z;
            n += 2;
        }
    }
    n
}
