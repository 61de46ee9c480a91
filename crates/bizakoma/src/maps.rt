// Check, identity, apply, compose and inverse, exported.
ghost use Rattle.std.specs.Prelude.{◌≡◌, length};
ghost use Rattle.rows.specs.Answer.{numbers, applied_numbers, answer_of, written};
ghost use Rattle.rows.specs.Apply.{apply_files};
ghost use Rattle.rows.specs.Check.{check_files};
ghost use Rattle.rows.specs.Compose.{compose_files};
ghost use Rattle.rows.specs.Identity.{identity_file};
ghost use Rattle.rows.specs.Inverse.{inverse_files};
ghost use Rattle.bizakoma.specs.Numbers.{number_of, carried_of};

use crate::numbers::{Carried, Numbers};
use rows::apply::apply;
use rows::check::check;
use rows::compose::compose;
use rows::identity::identity;
use rows::inverse::inverse as invert;
use stored::model::Element;

// The identity of a model.
#[unsafe(no_mangle)]
pub extern "C" fn bizakoma_identity(model: &[u8], map: &mut [u8], carried: &mut Carried) -> u32
    ensures number { result ≡ number_of (numbers (answer_of (identity_file model.now (length map.old)))) }
    ensures carried { carried.new ≡ carried_of (numbers (answer_of (identity_file model.now (length map.old)))) }
    ensures output { map.new ≡ written (identity_file model.now (length map.old)) map.old }
{
    let answer = identity(model, map);
    Numbers::from(answer).tell(carried)
}

// Whether a pair list gives a map: the map, or why not.
// Of one shape with another export: the C interface has a function for each call.
#[unsafe(no_mangle)]
pub extern "C" fn bizakoma_check(
    source: &[u8],
    target: &[u8],
    pairs: &[u8],
    map: &mut [u8],
    carried: &mut Carried,
) -> u32
    ensures number { result ≡ number_of (numbers (answer_of (check_files source.now target.now pairs.now (length map.old)))) }
    ensures carried { carried.new ≡ carried_of (numbers (answer_of (check_files source.now target.now pairs.now (length map.old)))) }
    ensures output { map.new ≡ written (check_files source.now target.now pairs.now (length map.old)) map.old }
{
    let answer = check(source, target, pairs, map);
    Numbers::from(answer).tell(carried)
}

// Where an element goes: the image's representative.
#[unsafe(no_mangle)]
pub extern "C" fn bizakoma_apply(
    source: &[u8],
    target: &[u8],
    map: &[u8],
    element: u8,
    carried: &mut Carried,
) -> u32
    ensures number { result ≡ number_of (applied_numbers (apply_files source.now target.now map.now element)) }
    ensures carried { carried.new ≡ carried_of (applied_numbers (apply_files source.now target.now map.now element)) }
{
    let answer = apply(source, target, map, Element(u16::from(element)));
    Numbers::from(answer).tell(carried)
}

// One map, then another.
// Of one shape with another export: the C interface has a function for each call.
#[unsafe(no_mangle)]
pub extern "C" fn bizakoma_compose(
    source: &[u8],
    middle: &[u8],
    target: &[u8],
    first: &[u8],
    second: &[u8],
    map: &mut [u8],
    carried: &mut Carried,
) -> u32
    ensures number { result ≡ number_of (numbers (answer_of (compose_files source.now middle.now target.now first.now second.now (length map.old)))) }
    ensures carried { carried.new ≡ carried_of (numbers (answer_of (compose_files source.now middle.now target.now first.now second.now (length map.old)))) }
    ensures output { map.new ≡ written (compose_files source.now middle.now target.now first.now second.now (length map.old)) map.old }
{
    let answer = compose(source, middle, target, first, second, map);
    Numbers::from(answer).tell(carried)
}

// The inverse of a map, or that there is none.
// Of one shape with another export: the C interface has a function for each call.
#[unsafe(no_mangle)]
pub extern "C" fn bizakoma_inverse(
    source: &[u8],
    target: &[u8],
    map: &[u8],
    inverse: &mut [u8],
    carried: &mut Carried,
) -> u32
    ensures number { result ≡ number_of (numbers (answer_of (inverse_files source.now target.now map.now (length inverse.old)))) }
    ensures carried { carried.new ≡ carried_of (numbers (answer_of (inverse_files source.now target.now map.now (length inverse.old)))) }
    ensures output { inverse.new ≡ written (inverse_files source.now target.now map.now (length inverse.old)) inverse.old }
{
    let answer = invert(source, target, map, inverse);
    Numbers::from(answer).tell(carried)
}
