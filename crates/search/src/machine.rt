// The search as a machine: rounds, open choices, the closing check, one unit for each.
ghost use Rattle.std.specs.Prelude.{◌≡◌, true, false, [], ◌≤◌, ◌<◌, ◌+◌, ◌-◌, ◌*◌, length, get_or, take, drop};
ghost use Rattle.stored.specs.Limits.{max_elements};
ghost use Rattle.stored.specs.Model.{size};
ghost use Rattle.stored.specs.Canonical.{canonical};
ghost use Rattle.stored.specs.File.{held};
ghost use Rattle.rounds.specs.Colours.{left_colours, right_colours};
ghost use Rattle.rounds.specs.Round.{colours_of, colour_count, round_outcome};
ghost use Rattle.rounds.specs.Round as rounds;
ghost use Rattle.rounds.specs.Parts.{are_small, CountsOf};
ghost use Rattle.rounds.specs.Board.{board_room, Board};
ghost use Rattle.search.specs.declared.machine.Phase.TheVariants as phase;
ghost use Rattle.search.specs.Partners.{PartnersOf};
ghost use Rattle.search.specs.Machine.{map_of, after_round};
ghost use Rattle.search.specs.Machine as machine;
ghost use Rattle.search.specs.Answer.{answer_of, written, cleared, work_room, ended};
ghost use Rattle.search.specs.Find.{round_cost, start_from};
ghost use Rattle.search.specs.Find as calls;
ghost use Rattle.search.specs.Closing.{OneToOne};
ghost use Rattle.search.specs.Choices.{choice_length, choices_on, candidate_in, choices_in, sides_in, state_of, Rows, SmallSides, written_if, OnlyChoices, Settled, Weighed, Opened, Reopened, Looked};

use crate::answer::{Answer, Verdict};
use crate::choices::{open_choice, reopen, tried_count, try_choice};
use crate::closing::{closes, map_of};
use crate::work::{ROOM, clear};
use rounds::classes::{lowest_of, smallest_open};
use rounds::colours::{left_colours, right_colours};
use rounds::counts::{colour_count, count_both};
use rounds::round::{Rows, round, set_up};
use rows::check::put;
use rows::maps::no_images;
use stored::file::File;
use stored::matched::Matched;

// Where the board ends in the lent work, and the open choices start.
const BOARD: usize = 20736;

// What is due: a round, the closing check, or the next candidate of the latest open choice.
#[derive(Clone, Copy)]
pub enum Phase {
    Refine,
    Close,
    Choose,
}

// What is due next, how many choices are open, and, where a round is due, how many colours the left has.
#[derive(Clone, Copy)]
pub struct Turn {
    pub phase: Phase,
    pub depth: usize,
    pub count: usize,
}

// Opens a choice above so many open ones in the lent work: no right element is looked at yet.
fn open_above(
    work: &mut [u16],
    depth: usize,
    left: &[u16],
    right: &[u16],
    element: u16,
    old: u16,
    new: u16,
)
    requires { (work_room ≤ length work.old) × (depth < max_elements) × (length left.now ≤ max_elements) × (length right.now ≤ max_elements) }
    ensures opened { Opened (choices_on work.old) depth left.now right.now element old new (choices_on work.new) }
    ensures kept { OnlyChoices work.old work.new }
{
    open_choice(
        &mut work[BOARD..ROOM],
        depth,
        left,
        right,
        element,
        old,
        new,
    );
}

// After a stable round: a choice is opened at the smallest left class with two or more members; where all are single the closing check is due.
fn settle(
    left: &File<'_>,
    row: &[u16],
    other: &[u16],
    count: usize,
    table: &[u8],
    work: &mut [u16],
    depth: usize,
) -> Turn
    requires { (length row.now ≡ size (held left.now)) × (length other.now ≤ max_elements) × (count ≡ colour_count (held left.now) row.now) × (work_room ≤ length work.old) × (depth < max_elements) × CountsOf table.now (colours_of (held left.now) row.now) }
    ensures settled { Settled (held left.now) row.now other.now (choices_on work.old) depth result.phase result.depth (choices_on work.new) }
    ensures count { result.count ≡ count }
    ensures kept { OnlyChoices work.old work.new }
{
    match smallest_open(left, table) {
        None => Turn {
            phase: Phase::Close,
            depth,
            count,
        },
        Some(k) => {
            let x = lowest_of(left, row, k);
            open_above(work, depth, row, other, x as u16, k.0, count as u16);
            Turn {
                phase: Phase::Choose,
                depth: depth + 1,
                count,
            }
        }
    }
}

// What the colours after a round come to, given how many the left had before it.
fn weigh(
    both: &Matched<'_, '_>,
    row: &[u16],
    other: &[u16],
    before: usize,
    work: &mut [u16],
    depth: usize,
) -> Turn
    requires { (length row.now ≡ size (held both.now.left)) × (length other.now ≡ size (held both.now.right)) × (are_small (colours_of (held both.now.left) row.now) ≡ true) × (are_small (colours_of (held both.now.right) other.now) ≡ true) × (work_room ≤ length work.old) × (depth < max_elements) }
    ensures weighed { Weighed (held both.now.left) (held both.now.right) (record { left = row.now; right = other.now }) before (choices_on work.old) depth result.phase result.depth result.count (choices_on work.new) }
    ensures kept { OnlyChoices work.old work.new }
{
    let balance = count_both(&both.left, &both.right, row, other);
    if !balance.equal {
        return Turn {
            phase: Phase::Choose,
            depth,
            count: 0,
        };
    }
    if balance.count != before {
        return Turn {
            phase: Phase::Refine,
            depth,
            count: balance.count,
        };
    }
    let table = balance.table;
    settle(&both.left, row, other, balance.count, &table, work, depth)
}

// One round on the board, which is the front of the lent work.
fn recolour(both: &Matched<'_, '_>, cells: usize, old: Rows, work: &mut [u16]) -> Rows
    requires { Board (held both.now.left) (held both.now.right) cells (take board_room work.old) × (work_room ≤ length work.old) × Rows old }
    ensures recoloured { sides_in (held both.now.left) (held both.now.right) result ≡ rounds.round (held both.now.left) (held both.now.right) (sides_in (held both.now.left) (held both.now.right) old) }
    ensures shape { Rows result }
    ensures work { Board (held both.now.left) (held both.now.right) cells (take board_room work.new) × (choices_on work.new ≡ choices_on work.old) × (length work.new ≡ length work.old) × (drop work_room work.new ≡ drop work_room work.old) }
{
    round(both, cells, old, &mut work[..BOARD])
}

// One round, and what it comes to, given how many colours the left has before it.
fn refine(
    both: &Matched<'_, '_>,
    cells: usize,
    before: usize,
    colours: &mut Rows,
    work: &mut [u16],
    depth: usize,
) -> Turn
    requires { Board (held both.now.left) (held both.now.right) cells (take board_room work.old) × (work_room ≤ length work.old) × (depth < max_elements) × Rows colours.old × SmallSides (held both.now.left) (held both.now.right) (sides_in (held both.now.left) (held both.now.right) colours.old) × (before ≡ colour_count (held both.now.left) (sides_in (held both.now.left) (held both.now.right) colours.old).left) }
    ensures state { state_of result.phase (sides_in (held both.now.left) (held both.now.right) colours.new) (choices_in (held both.now.left) (held both.now.right) (choices_on work.new) result.depth) ≡ after_round (held both.now.left) (held both.now.right) (choices_in (held both.now.left) (held both.now.right) (choices_on work.old) depth) (round_outcome (held both.now.left) (held both.now.right) (sides_in (held both.now.left) (held both.now.right) colours.old)) }
    ensures kept { Board (held both.now.left) (held both.now.right) cells (take board_room work.new) × Rows colours.new × (result.depth ≤ depth + 1) × (length work.new ≡ length work.old) × (drop work_room work.new ≡ drop work_room work.old) }
    ensures count { result.phase ≡ phase.Refine → result.count ≡ colour_count (held both.now.left) (sides_in (held both.now.left) (held both.now.right) colours.new).left }
{
    let n = both.left.layout.size;
    let m = both.right.layout.size;
    let old = *colours;
    let new = recolour(both, cells, old, work);
    *colours = new;
    let row = new[0];
    let other = new[1];
    weigh(both, &row[..n], &other[..m], before, work, depth)
}

// The closing check; where it passes, the map is written over the front of `out`.
// A bool is the plainer form: what is written is lent by the caller, who asks only whether it was.
#[tactic(auto, using(crate::proofs::Laws::Tables::fronts))]
fn close(both: &Matched<'_, '_>, colours: Rows, out: &mut [u8]) -> bool
    requires { (canonical (held both.now.left) ≡ true) × (canonical (held both.now.right) ≡ true) × (calls.alike (held both.now.left) (held both.now.right) ≡ true) × OneToOne (held both.now.left) (map_of (held both.now.left) (held both.now.right) (sides_in (held both.now.left) (held both.now.right) colours)) × (size (held both.now.left) ≤ length out.old) × Rows colours }
    ensures answer { result ≡ machine.closes (held both.now.left) (held both.now.right) (map_of (held both.now.left) (held both.now.right) (sides_in (held both.now.left) (held both.now.right) colours)) }
    ensures output { out.new ≡ written_if result (map_of (held both.now.left) (held both.now.right) (sides_in (held both.now.left) (held both.now.right) colours)) out.old }
{
    let n = both.left.layout.size;
    let m = both.right.layout.size;
    let row = colours[0];
    let other = colours[1];
    let mut map = no_images();
    map_of(both, &row[..n], &other[..m], &mut map[..n]);
    if closes(both, &map[..n]) {
        put(&map[..n], out);
        return true;
    }
    false
}

// The colours that the search starts from.
#[tactic(auto, using(crate::proofs::Laws::Tables::fronts))]
fn first_colours(both: &Matched<'_, '_>, to_right: &[u8], to_left: &[u8]) -> Rows
    ensures colours { sides_in (held both.now.left) (held both.now.right) result ≡ record { left = left_colours (held both.now.left) to_right.now; right = right_colours (held both.now.right) (left_colours (held both.now.left) to_right.now) to_left.now } }
    ensures shape { Rows result }
{
    let n = both.left.layout.size;
    let m = both.right.layout.size;
    let mut row = [65535u16; 64]; // no colour anywhere
    left_colours(&both.left, to_right, &mut row[..n]);
    let mut other = [65535u16; 64];
    right_colours(&both.right, &row[..n], to_left, &mut other[..m]);
    [row, other]
}

// How many colours the left has at the start.
#[tactic(auto, using(crate::proofs::Laws::Tables::fronts))]
fn first_count(left: &File<'_>, start: Rows) -> usize
    requires { Rows start × (are_small (colours_of (held left.now) (take (size (held left.now)) (get_or start 0 []))) ≡ true) }
    ensures { result ≡ colour_count (held left.now) (take (size (held left.now)) (get_or start 0 [])) }
{
    let n = left.layout.size;
    let row = start[0];
    colour_count(left, &row[..n])
}

// How many of the open choices stay open when the latest ones with no candidate left are closed.
fn still_open(right: &File<'_>, work: &[u16], depth: usize) -> usize
    requires { (work_room ≤ length work.now) × (depth < max_elements) }
    ensures { Reopened (held right.now) (choices_on work.now) depth result }
{
    reopen(right, &work[BOARD..ROOM], depth)
}

// Looks at the next candidate of the latest of so many open choices, and answers whether it has the choice's colour. Where it has, `colours` are those to go on with; else they are unchanged.
// A bool is the plainer form: what is written is lent by the caller, who asks only whether it was.
fn try_latest(
    right: &File<'_>,
    n: usize,
    work: &mut [u16],
    depth: usize,
    colours: &mut Rows,
) -> bool
    requires { (work_room ≤ length work.old) × (1 ≤ depth) × (depth < max_elements) × (candidate_in (held right.now) (choices_on work.old) (depth - 1) < size (held right.now)) × (get_or (choices_on work.old) ((depth - 1) * choice_length + 128) 0 < n) × (n ≤ max_elements) }
    ensures looked { Looked (held right.now) n (choices_on work.old) depth colours.old (choices_on work.new) colours.new result }
    ensures kept { OnlyChoices work.old work.new }
{
    try_choice(right, n, &mut work[BOARD..ROOM], depth, colours)
}

// How many colours there are when a candidate of the latest of so many open choices is tried.
fn latest_count(work: &[u16], depth: usize) -> usize
    requires { (work_room ≤ length work.now) × (1 ≤ depth) × (depth < max_elements) }
    ensures { result ≡ get_or (choices_on work.now) ((depth - 1) * choice_length + 130) 0 + 1 }
{
    tried_count(&work[BOARD..ROOM], depth)
}

// The machine's run from some colours with no open choice (`search` of model_hom.rs).
fn run(
    both: &Matched<'_, '_>,
    cells: usize,
    start: Rows,
    budget: u64,
    out: &mut [u8],
    work: &mut [u16],
) -> Answer
    requires { (canonical (held both.now.left) ≡ true) × (canonical (held both.now.right) ≡ true) × (calls.alike (held both.now.left) (held both.now.right) ≡ true) × Board (held both.now.left) (held both.now.right) cells (take board_room work.old) × Rows start × (size (held both.now.left) ≤ length out.old) × (work_room ≤ length work.old) × SmallSides (held both.now.left) (held both.now.right) (sides_in (held both.now.left) (held both.now.right) start) }
    ensures answer { result ≡ answer_of (ended (machine.run budget round_cost (held both.now.left) (held both.now.right) budget 0 (machine.refine (sides_in (held both.now.left) (held both.now.right) start) []))) }
    ensures output { out.new ≡ written (ended (machine.run budget round_cost (held both.now.left) (held both.now.right) budget 0 (machine.refine (sides_in (held both.now.left) (held both.now.right) start) []))) out.old }
    ensures work { (length work.new ≡ length work.old) × (drop work_room work.new ≡ drop work_room work.old) }
{
    let mut count = first_count(&both.left, start);
    let mut colours = start;
    let mut phase = Phase::Refine;
    let mut depth: usize = 0;
    let mut used: u64 = 0;
    // goes from phase to phase, no index is counted
    loop {
        match phase {
            Phase::Refine => {
                if used == budget {
                    return Ok(Verdict::Exhausted(used)); // a round is due
                }
                used += 1; // the round
                let turn = refine(both, cells, count, &mut colours, work, depth);
                phase = turn.phase;
                depth = turn.depth;
                count = turn.count;
            }
            Phase::Close => {
                if used == budget {
                    return Ok(Verdict::Exhausted(used)); // the closing check is due
                }
                used += 1; // the closing check
                if close(both, colours, out) {
                    return Ok(Verdict::Found(used));
                }
                phase = Phase::Choose;
            }
            Phase::Choose => {
                let stay = still_open(&both.right, work, depth);
                if stay == 0 {
                    return Ok(Verdict::None(used));
                }
                if used == budget {
                    return Ok(Verdict::Exhausted(used)); // a candidate is due
                }
                depth = stay;
                if try_latest(&both.right, both.left.layout.size, work, stay, &mut colours) {
                    used += 1; // a candidate of the colour
                    count = latest_count(work, stay);
                    phase = Phase::Refine;
                } else {
                    used += 1; // a candidate of another colour
                }
            }
        }
    }
}

// The search from fixed partners. The work may hold anything; it is used, and all of it cleared.
pub(crate) fn search(
    both: &Matched<'_, '_>,
    to_right: &[u8],
    to_left: &[u8],
    budget: u64,
    out: &mut [u8],
    work: &mut [u16],
) -> Answer
    requires { (canonical (held both.now.left) ≡ true) × (canonical (held both.now.right) ≡ true) × (calls.alike (held both.now.left) (held both.now.right) ≡ true) × PartnersOf (held both.now.left) (held both.now.right) to_right.now to_left.now × (size (held both.now.left) ≤ length out.old) × (work_room ≤ length work.old) }
    ensures answer { result ≡ answer_of (ended (machine.run budget round_cost (held both.now.left) (held both.now.right) budget 0 (start_from (held both.now.left) (held both.now.right) to_right.now to_left.now))) }
    ensures output { out.new ≡ written (ended (machine.run budget round_cost (held both.now.left) (held both.now.right) budget 0 (start_from (held both.now.left) (held both.now.right) to_right.now to_left.now))) out.old }
    ensures work { work.new ≡ cleared work_room work.old }
{
    let cells = set_up(both, &mut work[..BOARD]);
    let start = first_colours(both, to_right, to_left);
    let answer = run(both, cells, start, budget, out, work);
    clear(work);
    answer
}
