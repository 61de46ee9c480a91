// Find, find with pairs and find under a base, exported.
ghost use Rattle.std.specs.Prelude.{◌≡◌, [], length};
ghost use Rattle.search.specs.Answer.{numbers, answer_of, written, worked};
ghost use Rattle.search.specs.Find.{find_files, under_files};
ghost use Rattle.bizakoma.specs.Numbers.{number_of, carried_of};

use crate::numbers::{Carried, Numbers};
use search::find::{find, find_under, find_with_pairs};

// An isomorphism of two models.
#[unsafe(no_mangle)]
pub extern "C" fn bizakoma_find(
    left: &[u8],
    right: &[u8],
    budget: u64,
    map: &mut [u8],
    work: &mut [u16],
    carried: &mut Carried,
) -> u32
    ensures number { result ≡ number_of (numbers (answer_of (find_files left.now right.now [] budget (length map.old) (length work.old)))) }
    ensures carried { carried.new ≡ carried_of (numbers (answer_of (find_files left.now right.now [] budget (length map.old) (length work.old)))) }
    ensures output { map.new ≡ written (find_files left.now right.now [] budget (length map.old) (length work.old)) map.old }
    ensures work { work.new ≡ worked (find_files left.now right.now [] budget (length map.old) (length work.old)) work.old }
{
    let answer = find(left, right, budget, map, work);
    Numbers::from(answer).tell(carried)
}

// An isomorphism that takes each pair's first to its second.
// Of one shape with another export: the C interface has a function for each call.
#[unsafe(no_mangle)]
pub extern "C" fn bizakoma_find_with_pairs(
    left: &[u8],
    right: &[u8],
    pairs: &[u8],
    budget: u64,
    map: &mut [u8],
    work: &mut [u16],
    carried: &mut Carried,
) -> u32
    ensures number { result ≡ number_of (numbers (answer_of (find_files left.now right.now pairs.now budget (length map.old) (length work.old)))) }
    ensures carried { carried.new ≡ carried_of (numbers (answer_of (find_files left.now right.now pairs.now budget (length map.old) (length work.old)))) }
    ensures output { map.new ≡ written (find_files left.now right.now pairs.now budget (length map.old) (length work.old)) map.old }
    ensures work { work.new ≡ worked (find_files left.now right.now pairs.now budget (length map.old) (length work.old)) work.old }
{
    let answer = find_with_pairs(left, right, pairs, budget, map, work);
    Numbers::from(answer).tell(carried)
}

// An isomorphism that takes a base's map to the left to its map to the right.
#[unsafe(no_mangle)]
pub extern "C" fn bizakoma_find_under(
    base: &[u8],
    left: &[u8],
    right: &[u8],
    to_left: &[u8],
    to_right: &[u8],
    budget: u64,
    map: &mut [u8],
    work: &mut [u16],
    carried: &mut Carried,
) -> u32
    ensures number { result ≡ number_of (numbers (answer_of (under_files base.now left.now right.now to_left.now to_right.now budget (length map.old) (length work.old)))) }
    ensures carried { carried.new ≡ carried_of (numbers (answer_of (under_files base.now left.now right.now to_left.now to_right.now budget (length map.old) (length work.old)))) }
    ensures output { map.new ≡ written (under_files base.now left.now right.now to_left.now to_right.now budget (length map.old) (length work.old)) map.old }
    ensures work { work.new ≡ worked (under_files base.now left.now right.now to_left.now to_right.now budget (length map.old) (length work.old)) work.old }
{
    let answer = find_under(base, left, right, to_left, to_right, budget, map, work);
    Numbers::from(answer).tell(carried)
}
