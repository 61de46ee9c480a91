// Maps: n bytes, at a representative the image's representative, at an alias 255.
ghost use Rattle.std.specs.Prelude.{◌≡◌, true, ◌≤◌, ◌<◌, length};
ghost use Rattle.lists.specs.Every.{all};
ghost use Rattle.lists.specs.Numbers.{up_from};
ghost use Rattle.stored.specs.Limits.{max_types, max_elements};
ghost use Rattle.stored.specs.Signature.{signature, same_signature};
ghost use Rattle.stored.specs.File.{held};
ghost use Rattle.rows.specs.Rows.{first_unkept};
ghost use Rattle.rows.specs.Check.{blank};
ghost use Rattle.rows.specs.Maps.{entry_in, is_map};

use crate::rows::{first_unkept, write_through};
use stored::canonical::is_rep;
use stored::file::File;
use stored::model::Element;
use stored::types::type_in;

// A table with room for the image of every element.
pub type Images = [u8; 64];

// No images yet.
pub fn no_images() -> Images
    ensures { result ≡ blank 64 }
{
    [255u8; 64]
}

// Whether the entry of one element is as a map's must be.
// No Option: 255 stands for none in the bytes of a map, which C lends.
fn entry_holds(
    types: &[u8],
    roots: &[u8],
    other_types: &[u8],
    other_roots: &[u8],
    map: &[u8],
    x: usize,
) -> bool
    requires { (length types.now ≤ max_types) × (length other_types.now ≤ max_types) × (x < length map.now) × (length map.now ≤ max_elements) }
    ensures { result ≡ entry_in types.now roots.now other_types.now other_roots.now map.now x }
{
    let y = map[x];
    if !is_rep(roots, x) {
        return y == 255;
    }
    if !is_rep(other_roots, y as usize) {
        return false;
    }
    let its_type = type_in(other_types, Element(y as u16)).0;
    let own_type = type_in(types, Element(x as u16)).0;
    its_type == own_type
}

// Whether the entry of every element is as a map's must be.
fn entries_hold(
    types: &[u8],
    roots: &[u8],
    other_types: &[u8],
    other_roots: &[u8],
    map: &[u8],
) -> bool
    requires { (length types.now ≤ max_types) × (length other_types.now ≤ max_types) × (length map.now ≤ max_elements) }
    ensures { result ≡ all (entry_in types.now roots.now other_types.now other_roots.now map.now) (up_from 0 (length map.now)) }
{
    (0..map.len()).all(|x| entry_holds(types, roots, other_types, other_roots, map, x))
}

// The lowest number of a relation that a map of classes does not keep; the number of relations where it keeps all.
pub(crate) fn unkept(source: &File<'_>, target: &File<'_>, map: &[u8]) -> usize
    requires { same_signature (signature (held source.now)) (signature (held target.now)) ≡ true }
    ensures { result ≡ first_unkept (held source.now) (held target.now) map.now }
{
    let n = source.size();
    let mut images = [255; 64];
    write_through(map, source.roots(), &mut images[..n]);
    first_unkept(source, target, &images[..n])
}

// Whether bytes are a map from the source's model to the target's, which have one signature.
pub fn is_map(source: &File<'_>, target: &File<'_>, map: &[u8]) -> bool
    requires { same_signature (signature (held source.now)) (signature (held target.now)) ≡ true }
    ensures { result ≡ is_map (held source.now) (held target.now) map.now }
{
    if map.len() != source.size() {
        return false;
    }
    if !entries_hold(
        source.types(),
        source.roots(),
        target.types(),
        target.roots(),
        map,
    ) {
        return false;
    }
    let relation = unkept(source, target, map);
    relation == source.relations()
}
