// Open choices in the lent work: 132 entries each, the colours of both sides first, then the element, its colour, the new colour and the first right
// element not yet looked at. `specs/Choices.antt` tells what they stand for.
ghost use Rattle.std.specs.Prelude.{◌≡◌, ◌≤◌, ◌<◌, ◌+◌, ◌-◌, ◌*◌, length, get_or, set, take};
ghost use Rattle.lists.specs.First.{lowest};
ghost use Rattle.lists.specs.Part.{part};
ghost use Rattle.stored.specs.Limits.{max_elements};
ghost use Rattle.stored.specs.Model.{size, is_rep_in};
ghost use Rattle.stored.specs.File.{held};
ghost use Rattle.search.specs.Choices.{choice_length, candidate_from, candidate_in, Opened, Reopened, Looked};

use rounds::round::Rows;
use stored::canonical::is_rep;
use stored::file::File;

// How many entries a choice takes.
const CHOICE: usize = 132;

// Opens a choice above so many open ones: no right element is looked at yet.
pub(crate) fn open_choice(
    choices: &mut [u16],
    depth: usize,
    left: &[u16],
    right: &[u16],
    element: u16,
    old: u16,
    new: u16,
)
    requires { (depth * choice_length + choice_length ≤ length choices.old) × (length left.now ≤ max_elements) × (length right.now ≤ max_elements) }
    ensures { Opened choices.old depth left.now right.now element old new choices.new }
{
    let at = depth * CHOICE;
    choices[at..at + left.len()].copy_from_slice(left);
    choices[at + 64..at + 64 + right.len()].copy_from_slice(right);
    choices[at + 128] = element;
    choices[at + 129] = old;
    choices[at + 130] = new;
    choices[at + 131] = 0;
}

// The first representative from an element on; where there is none, the number of elements, or `from` where that is more.
fn rep_from(roots: &[u8], from: usize) -> usize
    ensures { result ≡ lowest (is_rep_in roots.now) from (length roots.now - from) }
{
    for y in from..roots.len() {
        if is_rep(roots, y) {
            return y;
        }
    }
    from.max(roots.len())
}

// The first right representative from an element on; where there is none, the number of elements, or `from` where that is more.
#[tactic(auto, using(stored::proofs::Laws::Reading::roots_inside))]
fn candidate(right: &File<'_>, from: usize) -> usize
    ensures { result ≡ candidate_from (held right.now) from }
{
    rep_from(right.roots(), from)
}

// How many of the open choices stay open when the latest ones with no candidate left are closed.
pub(crate) fn reopen(right: &File<'_>, choices: &[u16], depth: usize) -> usize
    requires { depth * choice_length ≤ length choices.now }
    ensures { Reopened (held right.now) choices.now depth result }
{
    let n = right.layout.size;
    for latest in (0..depth).rev() {
        let at = latest * CHOICE;
        let y = candidate(right, choices[at + 131] as usize);
        if y < n {
            return latest + 1;
        }
    }
    0
}

// How many colours there are when a candidate of the latest of so many open choices is tried: one more than the new colour's number.
pub(crate) fn tried_count(choices: &[u16], depth: usize) -> usize
    requires { (1 ≤ depth) × (depth * choice_length ≤ length choices.now) }
    ensures { result ≡ get_or choices.now ((depth - 1) * choice_length + 130) 0 + 1 }
{
    let at = (depth - 1) * CHOICE;
    let new = choices[at + 130] as usize;
    new + 1
}

// The first n colours from a place on, with the one of an element replaced; after them 65535, which is none.
fn tried_row(choices: &[u16], at: usize, n: usize, x: usize, colour: u16) -> [u16; 64]
    requires { (at + n ≤ length choices.now) × (n ≤ max_elements) × (x < n) }
    ensures { (take n result ≡ set (part choices.now at n) x colour) × (length result ≡ max_elements) }
{
    let mut row = [65535u16; 64];
    row[..n].copy_from_slice(&choices[at..at + n]);
    row[x] = colour;
    row
}

// Looks at the next candidate of the latest of so many open choices, and answers whether it has the choice's colour. Then `colours` are those of the
// choice with the new colour given to both its element and the candidate; else they are unchanged.
// A bool is the plainer form: what is written is lent by the caller, who asks only whether it was.
#[tactic(auto, using(crate::proofs::Laws::Tables::fronts))]
pub(crate) fn try_choice(
    right: &File<'_>,
    n: usize,
    choices: &mut [u16],
    depth: usize,
    colours: &mut Rows,
) -> bool
    requires { (1 ≤ depth) × (depth * choice_length ≤ length choices.old) × (candidate_in (held right.now) choices.old (depth - 1) < size (held right.now)) × (get_or choices.old ((depth - 1) * choice_length + 128) 0 < n) × (n ≤ max_elements) }
    ensures { Looked (held right.now) n choices.old depth colours.old choices.new colours.new result }
{
    let at = (depth - 1) * CHOICE;
    let y = candidate(right, choices[at + 131] as usize);
    choices[at + 131] = (y + 1) as u16;
    if choices[at + 64 + y] != choices[at + 129] {
        return false;
    }
    let element = choices[at + 128] as usize;
    let new = choices[at + 130];
    let left_row = tried_row(choices, at, n, element, new);
    let right_row = tried_row(choices, at + 64, right.layout.size, y, new);
    *colours = [left_row, right_row];
    true
}
