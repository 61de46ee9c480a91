// The closing check: equal colours give the map, and every relation is compared as a set.
ghost use Rattle.std.specs.Prelude.{◌≡◌, true, map as each, ◌≤◌, length};
ghost use Rattle.lists.specs.Numbers.{up_from};
ghost use Rattle.lists.specs.Part.{over};
ghost use Rattle.stored.specs.Limits.{max_elements};
ghost use Rattle.stored.specs.Model.{size};
ghost use Rattle.stored.specs.Canonical.{canonical};
ghost use Rattle.stored.specs.File.{held};
ghost use Rattle.search.specs.Machine.{image_in, map_of};
ghost use Rattle.search.specs.Machine as machine;
ghost use Rattle.search.specs.Find.{alike};
ghost use Rattle.search.specs.Closing.{OneToOne};

use rounds::classes::lowest_in;
use rounds::colours::colour_at;
use rows::packed::rows_among;
use stored::canonical::is_rep;
use stored::matched::Matched;

// The image of an element: of a representative the one of its colour, of an alias none.
// No Option: 255 stands for none in the bytes of a map, which C lends.
fn image_of(
    roots: &[u8],
    other_roots: &[u8],
    left_colours: &[u16],
    right_colours: &[u16],
    x: usize,
) -> u8
    requires { length other_roots.now ≤ max_elements }
    ensures { result ≡ image_in roots.now other_roots.now left_colours.now right_colours.now x }
{
    if !is_rep(roots, x) {
        return 255;
    }
    let colour = colour_at(left_colours, x);
    let y = lowest_in(other_roots, right_colours, colour);
    y as u8
}

// Writes the image of each element over the front of `out`.
fn write_map(
    roots: &[u8],
    other_roots: &[u8],
    left_colours: &[u16],
    right_colours: &[u16],
    out: &mut [u8],
)
    requires { (length roots.now ≤ length out.old) × (length other_roots.now ≤ max_elements) }
    ensures { out.new ≡ over (each (image_in roots.now other_roots.now left_colours.now right_colours.now) (up_from 0 (length roots.now))) out.old }
{
    for x in 0..roots.len() {
        let y = image_of(roots, other_roots, left_colours, right_colours, x);
        out[x] = y;
    }
}

// Writes the map that equal colours give over the front of `out`.
pub(crate) fn map_of(
    both: &Matched<'_, '_>,
    left_colours: &[u16],
    right_colours: &[u16],
    out: &mut [u8],
)
    requires { size (held both.now.left) ≤ length out.old }
    ensures { out.new ≡ over (map_of (held both.now.left) (held both.now.right) (record { left = left_colours.now; right = right_colours.now })) out.old }
{
    let roots = both.left.roots();
    let other_roots = both.right.roots();
    write_map(roots, other_roots, left_colours, right_colours, out);
}

// Whether a map takes the rows of each relation of the left onto those of the right (`preserves_relations` of model_hom.rs). Both models are canonical, of
// one signature and alike, and the map is one to one: the images of a relation's rows are as many as the right's rows, so where each of them is one of those,
// each of those is one of them, and only the first is looked at.
pub(crate) fn closes(both: &Matched<'_, '_>, map: &[u8]) -> bool
    requires { (canonical (held both.now.left) ≡ true) × (canonical (held both.now.right) ≡ true) × (alike (held both.now.left) (held both.now.right) ≡ true) × OneToOne (held both.now.left) map.now }
    ensures { result ≡ machine.closes (held both.now.left) (held both.now.right) map.now }
{
    let roots = both.right.roots();
    for k in 0..both.left.relations() {
        let rows = both.left.rows(k);
        let others = both.right.rows(k);
        if !rows_among(map, &rows, true, roots, &others) {
            return false;
        }
    }
    true
}
