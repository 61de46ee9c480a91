// Compose: one map, then another.
ghost use Rattle.std.specs.Prelude.{◌≡◌, true, ◌≤◌, length};
ghost use Rattle.stored.specs.Model.{size};
ghost use Rattle.stored.specs.Signature.{signature, same_signature};
ghost use Rattle.stored.specs.File.{held};
ghost use Rattle.rows.specs.Answer.{numbers, answer_of, written, refused};
ghost use Rattle.rows.specs.Files.{with_model};
ghost use Rattle.rows.specs.Compose.{compose_maps, compose_models, compose_files};

use crate::answer::{Answer, Ended};
use crate::files::{read_model, read_two};
use crate::maps::is_map;
use crate::rows::write_through;
use stored::file::File;
use stored::refusal::Refusal;

// Compose of two maps between three models of one signature.
fn compose_maps(
    source: &File<'_>,
    middle: &File<'_>,
    target: &File<'_>,
    first: &[u8],
    second: &[u8],
    out: &mut [u8],
) -> Answer
    requires { (same_signature (signature (held source.now)) (signature (held middle.now)) ≡ true) × (same_signature (signature (held middle.now)) (signature (held target.now)) ≡ true) × (size (held source.now) ≤ length out.old) }
    ensures answer { result ≡ answer_of (compose_maps first.now second.now (held source.now) (held middle.now) (held target.now)) }
    ensures output { out.new ≡ written (compose_maps first.now second.now (held source.now) (held middle.now) (held target.now)) out.old }
{
    if !is_map(source, middle, first) {
        return Err(Refusal::NotAMap { map: 1 });
    }
    if !is_map(middle, target, second) {
        return Err(Refusal::NotAMap { map: 2 });
    }
    write_through(second, first, out);
    Ok(Ended::Accepted)
}

// Compose of three files that hold models.
fn compose_models(
    source: &File<'_>,
    middle: &File<'_>,
    target: &File<'_>,
    first: &[u8],
    second: &[u8],
    out: &mut [u8],
) -> Answer
    ensures answer { result ≡ answer_of (compose_models first.now second.now (length out.old) (held source.now) (held middle.now) (held target.now)) }
    ensures output { out.new ≡ written (compose_models first.now second.now (length out.old) (held source.now) (held middle.now) (held target.now)) out.old }
{
    if out.len() < source.size() {
        return Err(Refusal::NoRoom);
    }
    if !source.same_signature(middle) {
        return Err(Refusal::SignaturesDiffer);
    }
    if !middle.same_signature(target) {
        return Err(Refusal::SignaturesDiffer);
    }
    compose_maps(source, middle, target, first, second, out)
}

// Compose where the first two files hold models.
fn compose_third(
    source: &File<'_>,
    middle: &File<'_>,
    target: &[u8],
    first: &[u8],
    second: &[u8],
    out: &mut [u8],
) -> Answer
    ensures answer { result ≡ answer_of (with_model 3 refused (compose_models first.now second.now (length out.old) (held source.now) (held middle.now)) target.now) }
    ensures output { out.new ≡ written (with_model 3 refused (compose_models first.now second.now (length out.old) (held source.now) (held middle.now)) target.now) out.old }
{
    let third = read_model(3, target)?;
    compose_models(source, middle, &third, first, second, out)
}

// A map from source to middle followed by one from middle to target (`ModelHom::then` of model_hom.rs; the shared model is passed once).
pub fn compose(
    source: &[u8],
    middle: &[u8],
    target: &[u8],
    first: &[u8],
    second: &[u8],
    out: &mut [u8],
) -> Answer
    ensures answer { numbers result ≡ numbers (answer_of (compose_files source.now middle.now target.now first.now second.now (length out.old))) }
    ensures output { out.new ≡ written (compose_files source.now middle.now target.now first.now second.now (length out.old)) out.old }
{
    let (source, middle) = read_two(source, middle)?;
    compose_third(&source, &middle, target, first, second, out)
}
