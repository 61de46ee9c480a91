// Find: an isomorphism of two models, with fixed pairs, and under a base.
ghost use Rattle.std.specs.Prelude.{◌≡◌, true, [], ◌≤◌, length, Ok};
ghost use Rattle.stored.specs.Model.{size};
ghost use Rattle.stored.specs.Canonical.{canonical};
ghost use Rattle.stored.specs.File.{held};
ghost use Rattle.rows.specs.Files.{with_model};
ghost use Rattle.rows.specs.Pairs.{pair_count};
ghost use Rattle.rounds.specs.Round.{reps};
ghost use Rattle.search.specs.Partners.{pairs_from, partners, partners_of, PartnersOf};
ghost use Rattle.search.specs.Answer.{numbers, ended, answer_of, written, refused, work_room, worked};
ghost use Rattle.search.specs.Find.{searched, find_among, find_models, find_files, pairs_under, under_models, under_files};

use crate::alike::alike;
use crate::answer::{Answer, Verdict};
use crate::machine::search;
use crate::pairs::{give_partners, pairs_hold, write_pairs_under};
use crate::work::{ROOM, clear};
use rows::files::{read_model, read_two};
use rows::maps::{is_map, no_images};
use stored::file::File;
use stored::matched::Matched;
use stored::refusal::Refusal;

// Find with the partners that good pairs give.
fn find_matched(
    both: &Matched<'_, '_>,
    to_right: &[u8],
    to_left: &[u8],
    budget: u64,
    out: &mut [u8],
    work: &mut [u16],
) -> Answer
    requires { (canonical (held both.now.left) ≡ true) × (canonical (held both.now.right) ≡ true) × PartnersOf (held both.now.left) (held both.now.right) to_right.now to_left.now × (size (held both.now.left) ≤ length out.old) × (work_room ≤ length work.old) }
    ensures answer { result ≡ answer_of (ended (searched (held both.now.left) (held both.now.right) budget (partners to_right.now to_left.now))) }
    ensures output { out.new ≡ written (ended (searched (held both.now.left) (held both.now.right) budget (partners to_right.now to_left.now))) out.old }
    ensures work { work.new ≡ worked (ended (searched (held both.now.left) (held both.now.right) budget (partners to_right.now to_left.now))) work.old }
{
    if !alike(both) {
        clear(work);
        return Ok(Verdict::None(0));
    }
    search(both, to_right, to_left, budget, out, work)
}

// Find with pairs that are all good.
#[tactic(auto, using(crate::proofs::Laws::Tables::fronts))]
fn find_paired(
    both: &Matched<'_, '_>,
    pairs: &[u8],
    budget: u64,
    out: &mut [u8],
    work: &mut [u16],
) -> Answer
    requires { (canonical (held both.now.left) ≡ true) × (canonical (held both.now.right) ≡ true) × (pairs_from (pair_count pairs.now) (held both.now.left) (held both.now.right) pairs.now 0 ≡ Ok tt) × (size (held both.now.left) ≤ length out.old) × (work_room ≤ length work.old) }
    ensures answer { result ≡ answer_of (ended (searched (held both.now.left) (held both.now.right) budget (partners_of (held both.now.left) (held both.now.right) pairs.now))) }
    ensures output { out.new ≡ written (ended (searched (held both.now.left) (held both.now.right) budget (partners_of (held both.now.left) (held both.now.right) pairs.now))) out.old }
    ensures work { work.new ≡ worked (ended (searched (held both.now.left) (held both.now.right) budget (partners_of (held both.now.left) (held both.now.right) pairs.now))) work.old }
{
    let n = both.left.layout.size;
    let other_n = both.right.layout.size;
    let mut to_right = no_images();
    let mut to_left = no_images();
    if !give_partners(
        &both.left,
        &both.right,
        pairs,
        &mut to_right[..n],
        &mut to_left[..other_n],
    ) {
        clear(work);
        return Ok(Verdict::None(0));
    }
    find_matched(both, &to_right[..n], &to_left[..other_n], budget, out, work)
}

// Find among two canonical models of one signature, for which there is room.
fn find_among(
    both: &Matched<'_, '_>,
    pairs: &[u8],
    budget: u64,
    out: &mut [u8],
    work: &mut [u16],
) -> Answer
    requires { (canonical (held both.now.left) ≡ true) × (canonical (held both.now.right) ≡ true) × (size (held both.now.left) ≤ length out.old) × (work_room ≤ length work.old) }
    ensures answer { result ≡ answer_of (find_among (held both.now.left) (held both.now.right) pairs.now budget) }
    ensures output { out.new ≡ written (find_among (held both.now.left) (held both.now.right) pairs.now budget) out.old }
    ensures work { work.new ≡ worked (find_among (held both.now.left) (held both.now.right) pairs.now budget) work.old }
{
    pairs_hold(&both.left, &both.right, pairs)?;
    find_paired(both, pairs, budget, out, work)
}

// Find of two files that hold models.
fn find_models(
    left: &File<'_>,
    right: &File<'_>,
    pairs: &[u8],
    budget: u64,
    out: &mut [u8],
    work: &mut [u16],
) -> Answer
    ensures answer { result ≡ answer_of (find_models pairs.now budget (length out.old) (length work.old) (held left.now) (held right.now)) }
    ensures output { out.new ≡ written (find_models pairs.now budget (length out.old) (length work.old) (held left.now) (held right.now)) out.old }
    ensures work { work.new ≡ worked (find_models pairs.now budget (length out.old) (length work.old) (held left.now) (held right.now)) work.old }
{
    if out.len() < left.size() {
        return Err(Refusal::NoRoom);
    }
    if work.len() < ROOM {
        return Err(Refusal::NoRoom);
    }
    if !left.is_canonical() {
        return Err(Refusal::NotCanonical { model: 1 });
    }
    if !right.is_canonical() {
        return Err(Refusal::NotCanonical { model: 2 });
    }
    if !left.same_signature(right) {
        return Err(Refusal::SignaturesDiffer);
    }
    if pairs.len() % 2 != 0 {
        return Err(Refusal::OddPairs);
    }
    let both = Matched {
        left: *left,
        right: *right,
    };
    find_among(&both, pairs, budget, out, work)
}

// An isomorphism from the left to the right that takes each pair's first to its second (`find_with_pairs` of model_hom.rs).
pub fn find_with_pairs(
    left: &[u8],
    right: &[u8],
    pairs: &[u8],
    budget: u64,
    out: &mut [u8],
    work: &mut [u16],
) -> Answer
    ensures answer { numbers result ≡ numbers (answer_of (find_files left.now right.now pairs.now budget (length out.old) (length work.old))) }
    ensures output { out.new ≡ written (find_files left.now right.now pairs.now budget (length out.old) (length work.old)) out.old }
    ensures work { work.new ≡ worked (find_files left.now right.now pairs.now budget (length out.old) (length work.old)) work.old }
{
    let (left, right) = read_two(left, right)?;
    find_models(&left, &right, pairs, budget, out, work)
}

// An isomorphism from the left to the right (`find_isomorphism` of model_hom.rs).
pub fn find(left: &[u8], right: &[u8], budget: u64, out: &mut [u8], work: &mut [u16]) -> Answer
    ensures answer { numbers result ≡ numbers (answer_of (find_files left.now right.now [] budget (length out.old) (length work.old))) }
    ensures output { out.new ≡ written (find_files left.now right.now [] budget (length out.old) (length work.old)) out.old }
    ensures work { work.new ≡ worked (find_files left.now right.now [] budget (length out.old) (length work.old)) work.old }
{
    find_with_pairs(left, right, &left[..0], budget, out, work)
}

// Find with the pairs that two maps give to the representatives of a base.
#[tactic(auto, using(stored::proofs::Laws::Reading::roots_inside, rows::proofs::Laws::Given::roots_few))]
fn find_from(
    base: &File<'_>,
    both: &Matched<'_, '_>,
    to_left: &[u8],
    to_right: &[u8],
    budget: u64,
    out: &mut [u8],
    work: &mut [u16],
) -> Answer
    requires { (canonical (held both.now.left) ≡ true) × (canonical (held both.now.right) ≡ true) × (size (held both.now.left) ≤ length out.old) × (work_room ≤ length work.old) }
    ensures answer { result ≡ answer_of (find_among (held both.now.left) (held both.now.right) (pairs_under to_left.now to_right.now (reps (held base.now))) budget) }
    ensures output { out.new ≡ written (find_among (held both.now.left) (held both.now.right) (pairs_under to_left.now to_right.now (reps (held base.now))) budget) out.old }
    ensures work { work.new ≡ worked (find_among (held both.now.left) (held both.now.right) (pairs_under to_left.now to_right.now (reps (held base.now))) budget) work.old }
{
    let mut pairs = [0u8; 128];
    let n = write_pairs_under(base.roots(), to_left, to_right, &mut pairs);
    find_among(both, &pairs[..n], budget, out, work)
}

// Find under a base, for canonical models for which there is room.
fn under_maps(
    base: &File<'_>,
    left: &File<'_>,
    right: &File<'_>,
    to_left: &[u8],
    to_right: &[u8],
    budget: u64,
    out: &mut [u8],
    work: &mut [u16],
) -> Answer
    requires { (canonical (held left.now) ≡ true) × (canonical (held right.now) ≡ true) × (size (held left.now) ≤ length out.old) × (work_room ≤ length work.old) }
    ensures answer { result ≡ answer_of (under_models to_left.now to_right.now budget (length out.old) (length work.old) (held base.now) (held left.now) (held right.now)) }
    ensures output { out.new ≡ written (under_models to_left.now to_right.now budget (length out.old) (length work.old) (held base.now) (held left.now) (held right.now)) out.old }
    ensures work { work.new ≡ worked (under_models to_left.now to_right.now budget (length out.old) (length work.old) (held base.now) (held left.now) (held right.now)) work.old }
{
    if !base.same_signature(left) {
        return Err(Refusal::SignaturesDiffer);
    }
    if !base.same_signature(right) {
        return Err(Refusal::SignaturesDiffer);
    }
    if !is_map(base, left, to_left) {
        return Err(Refusal::NotAMap { map: 1 });
    }
    if !is_map(base, right, to_right) {
        return Err(Refusal::NotAMap { map: 2 });
    }
    let both = Matched {
        left: *left,
        right: *right,
    };
    find_from(base, &both, to_left, to_right, budget, out, work)
}

// Find under a base, of three files that hold models.
fn under_models(
    base: &File<'_>,
    left: &File<'_>,
    right: &File<'_>,
    to_left: &[u8],
    to_right: &[u8],
    budget: u64,
    out: &mut [u8],
    work: &mut [u16],
) -> Answer
    ensures answer { result ≡ answer_of (under_models to_left.now to_right.now budget (length out.old) (length work.old) (held base.now) (held left.now) (held right.now)) }
    ensures output { out.new ≡ written (under_models to_left.now to_right.now budget (length out.old) (length work.old) (held base.now) (held left.now) (held right.now)) out.old }
    ensures work { work.new ≡ worked (under_models to_left.now to_right.now budget (length out.old) (length work.old) (held base.now) (held left.now) (held right.now)) work.old }
{
    if out.len() < left.size() {
        return Err(Refusal::NoRoom);
    }
    if work.len() < ROOM {
        return Err(Refusal::NoRoom);
    }
    if !left.is_canonical() {
        return Err(Refusal::NotCanonical { model: 2 });
    }
    if !right.is_canonical() {
        return Err(Refusal::NotCanonical { model: 3 });
    }
    under_maps(base, left, right, to_left, to_right, budget, out, work)
}

// Find under a base, where the first two files hold models.
fn under_third(
    base: &File<'_>,
    left: &File<'_>,
    right: &[u8],
    to_left: &[u8],
    to_right: &[u8],
    budget: u64,
    out: &mut [u8],
    work: &mut [u16],
) -> Answer
    ensures answer { result ≡ answer_of (with_model 3 refused (under_models to_left.now to_right.now budget (length out.old) (length work.old) (held base.now) (held left.now)) right.now) }
    ensures output { out.new ≡ written (with_model 3 refused (under_models to_left.now to_right.now budget (length out.old) (length work.old) (held base.now) (held left.now)) right.now) out.old }
    ensures work { work.new ≡ worked (with_model 3 refused (under_models to_left.now to_right.now budget (length out.old) (length work.old) (held base.now) (held left.now)) right.now) work.old }
{
    let third = read_model(3, right)?;
    under_models(base, left, &third, to_left, to_right, budget, out, work)
}

// An isomorphism from the left to the right that takes a base's map to the left to its map to the right (`find_isomorphism_under` of model_hom.rs).
pub fn find_under(
    base: &[u8],
    left: &[u8],
    right: &[u8],
    to_left: &[u8],
    to_right: &[u8],
    budget: u64,
    out: &mut [u8],
    work: &mut [u16],
) -> Answer
    ensures answer { numbers result ≡ numbers (answer_of (under_files base.now left.now right.now to_left.now to_right.now budget (length out.old) (length work.old))) }
    ensures output { out.new ≡ written (under_files base.now left.now right.now to_left.now to_right.now budget (length out.old) (length work.old)) out.old }
    ensures work { work.new ≡ worked (under_files base.now left.now right.now to_left.now to_right.now budget (length out.old) (length work.old)) work.old }
{
    let (base, left) = read_two(base, left)?;
    under_third(&base, &left, right, to_left, to_right, budget, out, work)
}
