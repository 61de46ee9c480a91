// Grouping equal keys: equal numbers exactly for equal keys, numbered by first appearance. The holders of keys of one bucket are linked, each to an earlier
// one; a link is one more than a place, 0 for none. An element with no places is found by its colour in a table of such links.
ghost use Rattle.std.specs.Prelude.{◌≡◌, true, false, List, [], ℕ, ◌≤◌, ◌<◌, ◌+◌, length, get_or, take};
ghost use Rattle.lists.specs.First.{first_at};
ghost use Rattle.lists.specs.Numbers.{up_from};
ghost use Rattle.lists.specs.Part.{over};
ghost use Rattle.rounds.specs.Colours.{colour_at};
ghost use Rattle.rounds.specs.Board.{colours_on, mark_end, mark_on, mark_bucket, bucket_on, alike_on, held_at, held_count, held_after, grouped, Ready, Chained, Holding, Placed};

use crate::keys::{mark_of, same_key};
use crate::numbers::colour_of;
use stored::canonical::is_rep;

// The bucket of a key, by its mark and colour.
fn bucket_of(mark: u64, colour: u16) -> usize
    requires { mark < mark_end }
    ensures { result ≡ mark_bucket mark colour }
{
    ((mark * 40503 / 65536 + colour as u64) % 256) as usize
}

// Whether two elements have the same key, given their marks.
// A bool answers the question: the board is lent to count in and comes back as it was.
fn same_marked(board: &mut [u16], cells: usize, x: usize, mark: u64, y: usize, other: u64) -> bool
    requires { Ready cells board.old × (x < 128) × (y < 128) × (mark ≡ mark_on cells board.old x) × (other ≡ mark_on cells board.old y) }
    ensures answer { result ≡ alike_on cells board.old x y }
    ensures kept { board.new ≡ board.old }
{
    if mark != other {
        return false;
    }
    same_key(board, cells, x, y)
}

// Whether an element is found by its colour alone: it has no places, and its colour has an entry in the table.
fn is_lone(mark: u64, colour: u16) -> bool
    ensures yes { result ≡ true → (mark ≡ 0) × (colour < 128) }
    ensures no { result ≡ false → mark ≡ 0 → colour < 128 → ⊥ }
{
    if mark != 0 {
        return false;
    }
    colour < 128
}

// How many holders there are after one more element, whose key is found at a place among `count`.
fn count_after(found: usize, count: usize) -> usize
    requires { count < 128 }
    ensures { result ≡ held_count found count }
{
    if found < count {
        return count;
    }
    count + 1
}

// The holders of keys: who they are and their marks, the last holder of each bucket, the holder that each links to, and for each colour the holder with no
// places.
#[derive(Drop)]
struct Tables {
    holders: [u16; 128],
    marks: [u64; 128],
    heads: [u16; 256],
    links: [u16; 128],
    lone: [u16; 128],
}

impl Tables {
    // The place, among the first `count` holders, of the one that has the key of x, looked for along its bucket; `count` where none has.
    fn find_key(
        &self,
        board: &mut [u16],
        cells: usize,
        count: usize,
        x: usize,
        mark: u64,
        bucket: usize,
    ) -> usize
        requires { Ready cells board.old × Chained cells board.old self.now.holders self.now.marks self.now.heads self.now.links count × (x < 128) × (mark ≡ mark_on cells board.old x) × (bucket ≡ bucket_on cells board.old x) }
        ensures answer { result ≡ first_at (alike_on cells board.old x) (take count self.now.holders) }
        ensures kept { board.new ≡ board.old }
    {
        let mut p = self.heads[bucket] as usize;
        // Follows the links of the bucket: no index is counted.
        while 0 < p {
            p -= 1;
            if same_marked(
                board,
                cells,
                x,
                mark,
                self.holders[p] as usize,
                self.marks[p],
            ) {
                return p;
            }
            p = self.links[p] as usize;
        }
        count
    }

    // Puts an element among the first `count` holders of keys where `found`, the place of its key among them, is the number after them. On a board where the
    // tables chain the holders before, they chain them after.
    fn hold(&mut self, count: usize, found: usize, x: u16, mark: u64, bucket: usize)
        requires { (count < 128) × (found ≤ count) × (bucket < 256) }
        ensures chained { (cells : ℕ) (w : List ℕ) → Chained cells w self.old.holders self.old.marks self.old.heads self.old.links count → x < 128 → mark ≡ mark_on cells w x → bucket ≡ bucket_on cells w x → found ≡ first_at (alike_on cells w x) (take count self.old.holders) → Chained cells w self.new.holders self.new.marks self.new.heads self.new.links (held_count found count) }
        ensures held { take (held_count found count) self.new.holders ≡ held_at found (take count self.old.holders) x }
        ensures lone { self.new.lone ≡ self.old.lone }
    {
        if found < count {
            return;
        }
        self.holders[count] = x;
        self.marks[count] = mark;
        self.links[count] = self.heads[bucket];
        self.heads[bucket] = (count + 1) as u16;
    }

    // The place, among the first `count` holders, of the key of x, by its bucket; the number after them where it is new, and x holds it then.
    fn place_key(
        &mut self,
        board: &mut [u16],
        cells: usize,
        count: usize,
        x: usize,
        mark: u64,
        colour: u16,
    ) -> usize
        requires { Ready cells board.old × Chained cells board.old self.old.holders self.old.marks self.old.heads self.old.links count × (count < 128) × (x < 128) × (mark ≡ mark_on cells board.old x) × (colour ≡ colour_at (colours_on board.old) x) }
        ensures answer { result ≡ first_at (alike_on cells board.old x) (take count self.old.holders) }
        ensures chained { Chained cells board.old self.new.holders self.new.marks self.new.heads self.new.links (held_count result count) }
        ensures held { take (held_count result count) self.new.holders ≡ held_at result (take count self.old.holders) x }
        ensures lone { self.new.lone ≡ self.old.lone }
        ensures kept { board.new ≡ board.old }
    {
        let bucket = bucket_of(mark, colour);
        let i = self.find_key(board, cells, count, x, mark, bucket);
        self.hold(count, i, x as u16, mark, bucket);
        i
    }

    // The same for an element with no places, by its colour alone.
    fn place_lone(&mut self, count: usize, x: u16, colour: u16) -> usize
        requires { (count < 128) × (colour < 128) }
        ensures { (cells : ℕ) (w : List ℕ) → Holding cells w self.old.holders self.old.marks self.old.heads self.old.links self.old.lone count → x < 128 → mark_on cells w x ≡ 0 → colour ≡ colour_at (colours_on w) x → Placed cells w self.old.holders count x result self.new.holders self.new.marks self.new.heads self.new.links self.new.lone }
    {
        let p = self.lone[colour as usize] as usize;
        if 0 < p {
            return p - 1;
        }
        let bucket = bucket_of(0, colour);
        self.hold(count, count, x, 0, bucket);
        self.lone[colour as usize] = (count + 1) as u16;
        count
    }

    // The place, among the first `count` holders, of the key of x; the number after them where it is new, and x holds it then.
    fn place(&mut self, board: &mut [u16], cells: usize, count: usize, x: usize) -> usize
        requires { Ready cells board.old × Holding cells board.old self.old.holders self.old.marks self.old.heads self.old.links self.old.lone count × (count < 128) × (x < 128) }
        ensures placed { Placed cells board.old self.old.holders count x result self.new.holders self.new.marks self.new.heads self.new.links self.new.lone }
        ensures kept { board.new ≡ board.old }
    {
        let mark = mark_of(board, cells, x);
        let colour = colour_of(board, x as u16);
        if is_lone(mark, colour) {
            return self.place_lone(count, x as u16, colour);
        }
        self.place_key(board, cells, count, x, mark, colour)
    }
}

// Numbers the keys of a side's representatives, 65535 for an alias, and adds to the holders of keys those that are new; answers how many holders there are
// then.
fn group_side(
    board: &mut [u16],
    cells: usize,
    roots: &[u8],
    raise: usize,
    tables: &mut Tables,
    count: usize,
    out: &mut [u16],
) -> usize
    requires { Ready cells board.old × (length roots.now ≤ 64) × (raise ≤ 64) × Holding cells board.old tables.old.holders tables.old.marks tables.old.heads tables.old.links tables.old.lone count × (count + length roots.now ≤ 128) × (length roots.now ≤ length out.old) }
    ensures colours { out.new ≡ over (grouped (alike_on cells board.old) roots.now raise (take count tables.old.holders) (up_from 0 (length roots.now))) out.old }
    ensures held { take result tables.new.holders ≡ held_after (alike_on cells board.old) roots.now raise (take count tables.old.holders) (up_from 0 (length roots.now)) }
    ensures within { (result ≤ count + length roots.now) × Holding cells board.old tables.new.holders tables.new.marks tables.new.heads tables.new.links tables.new.lone result }
    ensures kept { board.new ≡ board.old }
{
    let mut n = count;
    for x in 0..roots.len() {
        if is_rep(roots, x) {
            let i = tables.place(board, cells, n, x + raise);
            out[x] = i as u16;
            n = count_after(i, n);
        } else {
            out[x] = 65535;
        }
    }
    n
}

// Numbers the keys of both sides from one palette: the right's after those that the left holds.
pub(crate) fn group_sides(
    board: &mut [u16],
    cells: usize,
    roots: &[u8],
    other_roots: &[u8],
    out: &mut [u16],
    other_out: &mut [u16],
)
    requires { Ready cells board.old × (length roots.now ≤ 64) × (length other_roots.now ≤ 64) × (length roots.now ≤ length out.old) × (length other_roots.now ≤ length other_out.old) }
    ensures left { out.new ≡ over (grouped (alike_on cells board.old) roots.now 0 [] (up_from 0 (length roots.now))) out.old }
    ensures right { other_out.new ≡ over (grouped (alike_on cells board.old) other_roots.now 64 (held_after (alike_on cells board.old) roots.now 0 [] (up_from 0 (length roots.now))) (up_from 0 (length other_roots.now))) other_out.old }
    ensures kept { board.new ≡ board.old }
{
    let mut tables = Tables {
        holders: [0; 128],
        marks: [0; 128],
        heads: [0; 256],
        links: [0; 128],
        lone: [0; 128],
    };
    let held = group_side(board, cells, roots, 0, &mut tables, 0, out);
    group_side(board, cells, other_roots, 64, &mut tables, held, other_out);
}
