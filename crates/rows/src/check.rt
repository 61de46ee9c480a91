// Check: whether a pair list gives a map.
ghost use Rattle.std.specs.Prelude.{◌≡◌, true, ◌≤◌, length};
ghost use Rattle.lists.specs.First.{lowest};
ghost use Rattle.lists.specs.Part.{over};
ghost use Rattle.stored.specs.Model.{size};
ghost use Rattle.stored.specs.Signature.{signature, same_signature};
ghost use Rattle.stored.specs.File.{held};
ghost use Rattle.rows.specs.Answer.{numbers, answer_of, written};
ghost use Rattle.rows.specs.Check.{is_missing, judged, check_models, check_files};

use crate::answer::{Answer, Ended};
use crate::files::read_two;
use crate::maps::unkept;
use crate::pairs::give;
use stored::canonical::is_rep;
use stored::file::File;
use stored::model::{Element, RelationId};
use stored::refusal::Refusal;

// Copies bytes over the front of `out`.
pub fn put(bytes: &[u8], out: &mut [u8])
    requires { length bytes.now ≤ length out.old }
    ensures { out.new ≡ over bytes.now out.old }
{
    out[..bytes.len()].copy_from_slice(bytes);
}

// The lowest representative without an image; the number of elements where each has one.
// No Option: 255 stands for none in the bytes of a map, which C lends.
fn first_missing(roots: &[u8], images: &[u8]) -> usize
    requires { length images.now ≡ length roots.now }
    ensures { result ≡ lowest (is_missing roots.now images.now) 0 (length roots.now) }
{
    for (x, image) in images.iter().enumerate() {
        if *image == 255 && is_rep(roots, x) {
            return x;
        }
    }
    roots.len()
}

// Whether images that were given make a map: every class has one, every relation is kept.
fn judge(source: &File<'_>, target: &File<'_>, images: &[u8]) -> Answer
    requires { (same_signature (signature (held source.now)) (signature (held target.now)) ≡ true) × (length images.now ≡ size (held source.now)) }
    ensures { result ≡ answer_of (judged (held source.now) (held target.now) images.now) }
{
    let missing = first_missing(source.roots(), images);
    if missing < source.size() {
        return Err(Refusal::ImageMissing(Element(missing as u16)));
    }
    let relation = unkept(source, target, images);
    if relation < source.relations() {
        return Err(Refusal::RelationNotKept(RelationId(relation as u16)));
    }
    Ok(Ended::Accepted)
}

// Check of two files that hold models.
fn check_models(source: &File<'_>, target: &File<'_>, pairs: &[u8], out: &mut [u8]) -> Answer
    ensures answer { result ≡ answer_of (check_models pairs.now (length out.old) (held source.now) (held target.now)) }
    ensures output { out.new ≡ written (check_models pairs.now (length out.old) (held source.now) (held target.now)) out.old }
{
    let n = source.size();
    if out.len() < n {
        return Err(Refusal::NoRoom);
    }
    if !source.same_signature(target) {
        return Err(Refusal::SignaturesDiffer);
    }
    if pairs.len() % 2 != 0 {
        return Err(Refusal::OddPairs);
    }
    let mut images = [255; 64];
    give(source, target, pairs, &mut images[..n])?;
    let ended = judge(source, target, &images[..n])?;
    put(&images[..n], out);
    Ok(ended)
}

// Whether a pair list gives a map from the source to the target: the map, or why not (`ModelHom::new` of model_hom.rs).
pub fn check(source: &[u8], target: &[u8], pairs: &[u8], out: &mut [u8]) -> Answer
    ensures answer { numbers result ≡ numbers (answer_of (check_files source.now target.now pairs.now (length out.old))) }
    ensures output { out.new ≡ written (check_files source.now target.now pairs.now (length out.old)) out.old }
{
    let (source, target) = read_two(source, target)?;
    check_models(&source, &target, pairs, out)
}
