// Pair lists: bytes, element then image.
ghost use Rattle.std.specs.Prelude.{◌≡◌, ◌≤◌, ◌<◌, length};
ghost use Rattle.lists.specs.Numbers.{sum};
ghost use Rattle.stored.specs.Limits.{max_types};
ghost use Rattle.stored.specs.Model.{size};
ghost use Rattle.stored.specs.File.{held};
ghost use Rattle.rows.specs.Pairs.{pair_count, pair_in, conflicts, give_from, given_by};

use stored::file::File;
use stored::model::Element;
use stored::refusal::Refusal;
use stored::types::type_in;

// Whether the pair at a place is good: both elements known, of n and other_n, and of one type; otherwise what is wrong with it.
pub fn pair_at(
    types: &[u8],
    n: usize,
    other_types: &[u8],
    other_n: usize,
    pairs: &[u8],
    place: usize,
) -> Result<(), Refusal>
    requires { (length types.now ≤ max_types) × (length other_types.now ≤ max_types) × (n ≡ sum types.now) × (other_n ≡ sum other_types.now) × (place < pair_count pairs.now) }
    ensures { result ≡ pair_in types.now other_types.now pairs.now place }
{
    let left = pairs[2 * place];
    let right = pairs[2 * place + 1];
    if n <= left as usize {
        return Err(Refusal::UnknownElement { place, side: 1 });
    }
    if other_n <= right as usize {
        return Err(Refusal::UnknownElement { place, side: 2 });
    }
    let left_type = type_in(types, Element(left as u16)).0;
    let right_type = type_in(other_types, Element(right as u16)).0;
    if left_type != right_type {
        return Err(Refusal::TypesDiffer { place });
    }
    Ok(())
}

// Whether another image was given before.
// No Option: 255 stands for none in the bytes of a map, which C lends.
pub fn conflict(images: &[u8], x: usize, y: u8) -> bool
    requires { x < length images.now }
    ensures { result ≡ conflicts images.now x y }
{
    let before = images[x];
    if before == 255 {
        return false;
    }
    before != y
}

// The images that a pair list gives, over those given before, or the first pair at fault or in conflict. A call of its own: within its caller the loop
// has too few registers.
#[inline(never)]
pub(crate) fn give(
    source: &File<'_>,
    target: &File<'_>,
    pairs: &[u8],
    images: &mut [u8],
) -> Result<(), Refusal>
    requires { length images.old ≡ size (held source.now) }
    ensures { given_by result images.new ≡ give_from (pair_count pairs.now) (held source.now) (held target.now) pairs.now 0 images.old }
{
    let types = source.types();
    let other_types = target.types();
    let n = source.size();
    let other_n = target.size();
    let roots = source.roots();
    let other_roots = target.roots();
    for place in 0..pairs.len() / 2 {
        pair_at(types, n, other_types, other_n, pairs, place)?;
        let x = roots[pairs[2 * place] as usize] as usize;
        let y = other_roots[pairs[2 * place + 1] as usize];
        if conflict(images, x, y) {
            return Err(Refusal::ConflictingImages(Element(x as u16)));
        }
        images[x] = y;
    }
    Ok(())
}
