// Whether a model is canonical: no row holds an alias.
ghost use Rattle.std.specs.Prelude.{◌≡◌};
ghost use Rattle.lists.specs.Every.{all};
ghost use Rattle.stored.specs.Model.{is_rep_in};
ghost use Rattle.stored.specs.Canonical.{canonical};
ghost use Rattle.stored.specs.File.{held, listed};

use crate::file::File;
use crate::rows::Rows;

// Whether a number is that of an element which is its own representative.
#[tactic(auto, unfolding(crate::specs::Model::is_rep_in))]
pub fn is_rep(roots: &[u8], x: usize) -> bool
    ensures { result ≡ is_rep_in roots.now x }
{
    x < roots.len() && usize::from(roots[x]) == x
}

// Whether each entry of a row is its own representative.
fn row_canonical(roots: &[u8], row: &[u8]) -> bool
    ensures { result ≡ all (is_rep_in roots.now) row.now }
{
    row.iter().all(|x| is_rep(roots, usize::from(*x)))
}

// Whether each entry of some rows is its own representative.
fn rows_canonical(roots: &[u8], rows: &Rows<'_>) -> bool
    ensures { result ≡ all (all (is_rep_in roots.now)) (listed rows.now) }
{
    for i in 0..rows.count {
        if !row_canonical(roots, rows.row(i)) {
            return false;
        }
    }
    true
}

impl<'a> File<'a> {
    // Whether the model that a file holds is canonical (`is_canonical` of model.rs; see docs/DIFFERENCES.md).
    pub fn is_canonical(&self) -> bool
        ensures { result ≡ canonical (held self.now) }
    {
        let roots = self.roots();
        for k in 0..self.relations() {
            let rows = self.rows(k);
            if !rows_canonical(roots, &rows) {
                return false;
            }
        }
        true
    }
}
