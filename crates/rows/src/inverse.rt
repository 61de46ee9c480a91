// Inverse: the map back, where there is one.
ghost use Rattle.std.specs.Prelude.{◌≡◌, true, map as each, ◌≤◌, ◌<◌, length, eqb};
ghost use Rattle.lists.specs.Every.{all};
ghost use Rattle.lists.specs.First.{first_at};
ghost use Rattle.lists.specs.Numbers.{up_from};
ghost use Rattle.lists.specs.Part.{over};
ghost use Rattle.stored.specs.Limits.{max_elements};
ghost use Rattle.stored.specs.Signature.{signature, same_signature};
ghost use Rattle.stored.specs.File.{held};
ghost use Rattle.rows.specs.Answer.{numbers, answer_of, written};
ghost use Rattle.rows.specs.Maps.{one_to_one, reached, same_counts, invertible, inverse_entry};
ghost use Rattle.rows.specs.Inverse.{inverse_models, inverse_files};

use crate::answer::{Answer, Ended};
use crate::files::read_two;
use crate::maps::is_map;
use crate::packed::rows_counted;
use stored::canonical::is_rep;
use stored::file::File;
use stored::refusal::Refusal;

// The first place of a map where an image stands; its length where it stands nowhere.
fn first_at(map: &[u8], y: u8) -> usize
    ensures { result ≡ first_at (eqb y) map.now }
{
    map.iter().position(|x| *x == y).unwrap_or(map.len())
}

// Whether no two representatives have one image.
// No Option: 255 stands for none in the bytes of a map, which C lends.
fn one_to_one(map: &[u8]) -> bool
    ensures { result ≡ one_to_one map.now }
{
    for (x, y) in map.iter().enumerate() {
        if *y != 255 && first_at(map, *y) != x {
            return false;
        }
    }
    true
}

// Whether each target representative is an image.
fn is_onto(roots: &[u8], map: &[u8]) -> bool
    requires { length roots.now ≤ max_elements }
    ensures { result ≡ all (reached roots.now map.now) (up_from 0 (length roots.now)) }
{
    (0..roots.len()).all(|y| !is_rep(roots, y) || first_at(map, y as u8) < map.len())
}

// Whether each relation has as many normalised rows on both sides.
fn same_counts(source: &File<'_>, target: &File<'_>) -> bool
    requires { same_signature (signature (held source.now)) (signature (held target.now)) ≡ true }
    ensures { result ≡ same_counts (held source.now) (held target.now) }
{
    let roots = source.roots();
    let other_roots = target.roots();
    let plain = source.is_canonical();
    let other_plain = target.is_canonical();
    for k in 0..source.relations() {
        let n = rows_counted(plain, roots, &source.rows(k));
        let other_n = rows_counted(other_plain, other_roots, &target.rows(k));
        if n != other_n {
            return false;
        }
    }
    true
}

// Whether a map has an inverse.
fn is_invertible(source: &File<'_>, target: &File<'_>, map: &[u8]) -> bool
    requires { same_signature (signature (held source.now)) (signature (held target.now)) ≡ true }
    ensures { result ≡ invertible (held source.now) (held target.now) map.now }
{
    if !one_to_one(map) {
        return false;
    }
    if !is_onto(target.roots(), map) {
        return false;
    }
    same_counts(source, target)
}

// The entry of a target element in the inverse.
// No Option: 255 stands for none in the bytes of a map, which C lends.
fn inverse_entry(roots: &[u8], map: &[u8], y: usize) -> u8
    requires { (y < max_elements) × (length map.now ≤ max_elements) }
    ensures { result ≡ inverse_entry roots.now map.now y }
{
    if is_rep(roots, y) {
        first_at(map, y as u8) as u8
    } else {
        255
    }
}

// Writes the inverse over the front of `out`.
fn write_inverse(roots: &[u8], map: &[u8], out: &mut [u8])
    requires { (length roots.now ≤ length out.old) × (length roots.now ≤ max_elements) × (length map.now ≤ max_elements) }
    ensures { out.new ≡ over (each (inverse_entry roots.now map.now) (up_from 0 (length roots.now))) out.old }
{
    for y in 0..roots.len() {
        out[y] = inverse_entry(roots, map, y);
    }
}

// Inverse with two files that hold models.
fn inverse_models(source: &File<'_>, target: &File<'_>, map: &[u8], out: &mut [u8]) -> Answer
    ensures answer { result ≡ answer_of (inverse_models map.now (length out.old) (held source.now) (held target.now)) }
    ensures output { out.new ≡ written (inverse_models map.now (length out.old) (held source.now) (held target.now)) out.old }
{
    if out.len() < target.size() {
        return Err(Refusal::NoRoom);
    }
    if !source.same_signature(target) {
        return Err(Refusal::SignaturesDiffer);
    }
    if !is_map(source, target, map) {
        return Err(Refusal::NotAMap { map: 1 });
    }
    if !is_invertible(source, target, map) {
        return Ok(Ended::None);
    }
    write_inverse(target.roots(), map, out);
    Ok(Ended::Accepted)
}

// The map back from the target to the source, if the map is an isomorphism (`ModelHom::inverse` of model_hom.rs).
pub fn inverse(source: &[u8], target: &[u8], map: &[u8], out: &mut [u8]) -> Answer
    ensures answer { numbers result ≡ numbers (answer_of (inverse_files source.now target.now map.now (length out.old))) }
    ensures output { out.new ≡ written (inverse_files source.now target.now map.now (length out.old)) out.old }
{
    let (source, target) = read_two(source, target)?;
    inverse_models(&source, &target, map, out)
}
