// Identity: each representative to itself.
ghost use Rattle.std.specs.Prelude.{◌≡◌, map, ◌≤◌, length};
ghost use Rattle.lists.specs.Numbers.{up_from};
ghost use Rattle.lists.specs.Part.{over};
ghost use Rattle.stored.specs.Limits.{max_elements};
ghost use Rattle.rows.specs.Answer.{numbers, answer_of, written};
ghost use Rattle.rows.specs.Maps.{identity_entry};
ghost use Rattle.rows.specs.Identity.{identity_file};

use crate::answer::{Answer, Ended};
use crate::files::read_model;
use stored::canonical::is_rep;
use stored::refusal::Refusal;

// The entry of an element.
// No Option: 255 stands for none in the bytes of a map, which C lends.
fn identity_entry(roots: &[u8], x: usize) -> u8
    requires { x ≤ 255 }
    ensures { result ≡ identity_entry roots.now x }
{
    if is_rep(roots, x) { x as u8 } else { 255 }
}

// Writes the identity over the front of `out`.
fn write_identity(roots: &[u8], out: &mut [u8])
    requires { (length roots.now ≤ length out.old) × (length roots.now ≤ max_elements) }
    ensures { out.new ≡ over (map (identity_entry roots.now) (up_from 0 (length roots.now))) out.old }
{
    for x in 0..roots.len() {
        out[x] = identity_entry(roots, x);
    }
}

// The identity on a model's classes (`ModelHom::identity` of model_hom.rs).
pub fn identity(model: &[u8], out: &mut [u8]) -> Answer
    ensures answer { numbers result ≡ numbers (answer_of (identity_file model.now (length out.old))) }
    ensures output { out.new ≡ written (identity_file model.now (length out.old)) out.old }
{
    let file = read_model(1, model)?;
    if out.len() < file.size() {
        return Err(Refusal::NoRoom);
    }
    write_identity(file.roots(), out);
    Ok(Ended::Accepted)
}
