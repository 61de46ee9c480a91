// Calls of find, find with pairs and find under a base.
use crate::arguments;
use crate::numbers::Numbers;
use crate::reply::{Output, Reply, WORK_BEFORE, Work};
use search::answer::Answer;
use search::find::{find, find_under, find_with_pairs};

// A call of the search on a budget, an output of this length and a work of this many entries, and its answer with the output and the work
// after it.
fn replay<F: FnOnce(u64, &mut [u8], &mut [u16]) -> Answer>(
    budget: &[u8],
    length: &[u8],
    work: &[u8],
    call: F,
) -> Option<Reply>
    requires { F.IsAlwaysCallable call }
{
    let mut bytes = [0xa5; 256];
    let mut entries = [WORK_BEFORE; 33024];
    let budget = arguments::budget(budget)?;
    let length = arguments::length(length)?;
    let out = bytes.get_mut(..length)?;
    let work = entries.get_mut(..arguments::length(work)?)?;
    let answer = call(budget, out, work);
    let left = Work::left_in(work);
    Some(Reply::Search(Numbers::from(answer), Output { bytes, length }, left))
}

// A call of find.
pub(crate) fn replay_find(
    left: &[u8],
    right: &[u8],
    budget: &[u8],
    length: &[u8],
    work: &[u8],
) -> Option<Reply> {
    let mut left_buffer = [0; 4096];
    let mut right_buffer = [0; 4096];
    let left = arguments::bytes(left, &mut left_buffer)?;
    let right = arguments::bytes(right, &mut right_buffer)?;
    replay(budget, length, work, |budget, out, work| {
        find(left, right, budget, out, work)
    })
}

// A call of find with pairs.
pub(crate) fn replay_pairs(
    left: &[u8],
    right: &[u8],
    pairs: &[u8],
    budget: &[u8],
    length: &[u8],
    work: &[u8],
) -> Option<Reply> {
    let mut left_buffer = [0; 4096];
    let mut right_buffer = [0; 4096];
    let mut pairs_buffer = [0; 4096];
    let left = arguments::bytes(left, &mut left_buffer)?;
    let right = arguments::bytes(right, &mut right_buffer)?;
    let pairs = arguments::bytes(pairs, &mut pairs_buffer)?;
    replay(budget, length, work, |budget, out, work| {
        find_with_pairs(left, right, pairs, budget, out, work)
    })
}

// A call of find under a base.
pub(crate) fn replay_under(
    base: &[u8],
    left: &[u8],
    right: &[u8],
    to_left: &[u8],
    to_right: &[u8],
    budget: &[u8],
    length: &[u8],
    work: &[u8],
) -> Option<Reply> {
    let mut base_buffer = [0; 4096];
    let mut left_buffer = [0; 4096];
    let mut right_buffer = [0; 4096];
    let mut to_left_buffer = [0; 4096];
    let mut to_right_buffer = [0; 4096];
    let base = arguments::bytes(base, &mut base_buffer)?;
    let left = arguments::bytes(left, &mut left_buffer)?;
    let right = arguments::bytes(right, &mut right_buffer)?;
    let to_left = arguments::bytes(to_left, &mut to_left_buffer)?;
    let to_right = arguments::bytes(to_right, &mut to_right_buffer)?;
    replay(budget, length, work, |budget, out, work| {
        find_under(base, left, right, to_left, to_right, budget, out, work)
    })
}
