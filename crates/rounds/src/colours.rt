// The first colours of both sides: types, then fixed pairs.
ghost use Rattle.std.specs.Prelude.{◌≡◌, true, false, ℕ, map, ◌≤◌, ◌<◌, length, get_or};
ghost use Rattle.lists.specs.Every.{how_many};
ghost use Rattle.lists.specs.Numbers.{up_from};
ghost use Rattle.lists.specs.Part.{over};
ghost use Rattle.stored.specs.Limits.{max_types, max_elements};
ghost use Rattle.stored.specs.Types.{type_in};
ghost use Rattle.stored.specs.Model.{size, is_rep_in};
ghost use Rattle.stored.specs.File.{held};
ghost use Rattle.rounds.specs.Colours.{no_colour, colour_at, paired, left_colours, right_colours};
ghost use Rattle.rounds.specs.Parts.{left_colour_in, right_colour_in};

use rows::rows::look;
use stored::canonical::is_rep;
use stored::file::File;
use stored::model::Element;
use stored::types::type_in;

// The colour of an element; 65535, which stands for none, past the last.
// No Option: 65535 stands for none in the lent 16-bit entries.
pub fn colour_at(colours: &[u16], x: usize) -> u16
    ensures { result ≡ colour_at colours.now x }
{
    if x < colours.len() { colours[x] } else { 65535 }
}

// How many elements below another have a partner.
// No Option: 255 stands for none in the bytes of a map, which C lends.
fn paired_below(partners: &[u8], end: usize) -> usize
    ensures { result ≡ how_many (paired partners.now) (up_from 0 end) }
{
    let mut n: usize = 0;
    for x in 0..end {
        if look(partners, x) != 255 {
            n += 1;
        }
    }
    n
}

// The first colour of an element: that of its type, or where it has a partner, what is said of that.
// No Option: 255 stands for none in the bytes of partners, 65535 in the lent 16-bit entries.
fn first_colour<F: FnOnce(u8) -> u16>(
    types: &[u8],
    roots: &[u8],
    partners: &[u8],
    x: usize,
    of_pair: F,
) -> u16
    requires { (length types.now ≤ max_types) × (x ≤ max_elements) × F.IsAlwaysCallable of_pair }
    ensures alias { is_rep_in roots.now x ≡ false → result ≡ no_colour }
    ensures typed { is_rep_in roots.now x ≡ true → paired partners.now x ≡ false → result ≡ type_in types.now x }
    ensures of_pair { is_rep_in roots.now x ≡ true → paired partners.now x ≡ true → F.post of_pair (get_or partners.now x 255) result }
{
    if !is_rep(roots, x) {
        return 65535;
    }
    let partner = look(partners, x);
    if partner == 255 {
        return type_in(types, Element(x as u16)).0;
    }
    of_pair(partner)
}

// The first colour of a left element.
#[tactic(auto, using(crate::proofs::Laws::Colours::paired_few), unfolding(crate::specs::Parts::left_colour_in))]
fn left_colour(types: &[u8], roots: &[u8], partners: &[u8], x: usize) -> u16
    requires { (length types.now ≤ max_types) × (x ≤ max_elements) }
    ensures { result ≡ left_colour_in types.now roots.now partners.now x }
{
    first_colour(
        types,
        roots,
        partners,
        x,
        |_| (types.len() + paired_below(partners, x)) as u16,
    )
}

// The first colour of a right element: that of its partner, if it has one.
#[tactic(auto, unfolding(crate::specs::Parts::right_colour_in))]
fn right_colour(types: &[u8], roots: &[u8], left_colours: &[u16], partners: &[u8], y: usize) -> u16
    requires { (length types.now ≤ max_types) × (y ≤ max_elements) }
    ensures { result ≡ right_colour_in types.now roots.now left_colours.now partners.now y }
{
    first_colour(
        types,
        roots,
        partners,
        y,
        |x| colour_at(left_colours, x as usize),
    )
}

// Writes the colours of as many elements over the front of `out`.
fn write_colours<F: Fn(usize) -> u16>(count: usize, colour: F, out: &mut [u16])
    requires room { count ≤ length out.old }
    requires callable { (x : ℕ) → x < count → F.pre colour x }
    ensures { (f : ℕ → ℕ) → ((x k : ℕ) → x < count → F.post colour x k → k ≡ f x) → out.new ≡ over (map f (up_from 0 count)) out.old }
{
    for x in 0..count {
        out[x] = colour(x);
    }
}

// Writes the first colours of the left side, given the right partner of each element, over the front of `out`.
pub fn left_colours(left: &File<'_>, partners: &[u8], out: &mut [u16])
    requires { size (held left.now) ≤ length out.old }
    ensures { out.new ≡ over (left_colours (held left.now) partners.now) out.old }
{
    let types = left.types();
    let roots = left.roots();
    write_colours(roots.len(), |x| left_colour(types, roots, partners, x), out);
}

// Writes the first colours of the right side, given the left colours and the left partner of each element, over the front of `out`.
pub fn right_colours(right: &File<'_>, left_colours: &[u16], partners: &[u8], out: &mut [u16])
    requires { size (held right.now) ≤ length out.old }
    ensures { out.new ≡ over (right_colours (held right.now) left_colours.now partners.now) out.old }
{
    let types = right.types();
    let roots = right.roots();
    write_colours(
        roots.len(),
        |y| right_colour(types, roots, left_colours, partners, y),
        out,
    );
}
