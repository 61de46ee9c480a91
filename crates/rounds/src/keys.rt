// Whether two elements on the board have the same key: one colour, and as many places of each number.
ghost use Rattle.std.specs.Prelude.{◌≡◌, true, false, ℕ, ◌≤◌, ◌<◌, ◌+◌, eqb, get_or};
ghost use Rattle.lists.specs.Every.{how_many};
ghost use Rattle.rounds.specs.Board.{count_start, same_numbers, cells_on, start_of, places_on, segment, mark_on, alike_on, Listed, Segment, Empty, Counts, OnlyTable, Ready};

use crate::numbers::colour_of;

const NUMBERS: usize = 8192;

const COUNTS: usize = 12288;

const STARTS: usize = 20480;

// Where the places of an element end.
fn end_of(board: &[u16], cells: usize, x: usize) -> usize
    requires { Listed cells board.now × (x < 128) }
    ensures { result ≡ start_of (cells_on cells board.now) x + how_many (eqb x) (cells_on cells board.now) }
{
    if x < 127 {
        board[STARTS + 1 + x] as usize
    } else {
        cells
    }
}

// Counts a segment's numbers in an empty table.
fn count_up(board: &mut [u16], from: usize, end: usize)
    requires { Segment from end board.old × Empty count_start board.old }
    ensures counts { Counts count_start (segment from end board.old) board.new }
    ensures kept { OnlyTable count_start board.old board.new }
{
    for i in from..end {
        let at = COUNTS + board[NUMBERS + i] as usize;
        board[at] += 1;
    }
}

// Takes a segment's numbers off the counts; tells whether there were enough of each, and stops where there were not.
// A bool is the plainer form: the counts are lent, and the caller asks whether there were enough.
fn count_down(board: &mut [u16], from: usize, end: usize) -> bool
    requires { Segment from end board.old }
    ensures enough { result ≡ true → (n : ℕ) → n < 4096 → get_or board.new (count_start + n) 0 + how_many (eqb n) (segment from end board.old) ≡ get_or board.old (count_start + n) 0 }
    ensures missing { result ≡ false → (n : ℕ) × (n < 4096) × (get_or board.old (count_start + n) 0 < how_many (eqb n) (segment from end board.old)) }
    ensures fewer { (n : ℕ) → n < 4096 → get_or board.new (count_start + n) 0 ≤ get_or board.old (count_start + n) 0 }
    ensures kept { OnlyTable count_start board.old board.new }
{
    for i in from..end {
        let at = COUNTS + board[NUMBERS + i] as usize;
        let count = board[at];
        if count == 0 {
            return false;
        }
        board[at] = count - 1;
    }
    true
}

// Empties a table that counts a segment's numbers alone.
fn clear_counts(board: &mut [u16], from: usize, end: usize)
    requires { Segment from end board.old × ((n : ℕ) → n < 4096 → how_many (eqb n) (segment from end board.old) ≡ 0 → get_or board.old (count_start + n) 0 ≡ 0) }
    ensures emptied { Empty count_start board.new }
    ensures kept { OnlyTable count_start board.old board.new }
{
    for i in from..end {
        let at = COUNTS + board[NUMBERS + i] as usize;
        board[at] = 0;
    }
}

// The mark of an element: the sum of the cubes of its numbers, each with one more; the same for elements of one key, and 0 for an element with no places.
pub(crate) fn mark_of(board: &[u16], cells: usize, x: usize) -> u64
    requires { Ready cells board.now × (x < 128) }
    ensures { result ≡ mark_on cells board.now x }
{
    let from = board[STARTS + x] as usize;
    let end = end_of(board, cells, x);
    let mut sum: u64 = 0;
    for i in from..end {
        let n = board[NUMBERS + i] as u64;
        sum += n * n * n + 1;
    }
    sum
}

// Whether each number stands as often in two segments. The table is empty before and after.
// A bool answers the question: the board is lent to count in and comes back as it was.
fn same_numbers(
    board: &mut [u16],
    from: usize,
    end: usize,
    other_from: usize,
    other_end: usize,
) -> bool
    requires { Segment from end board.old × Segment other_from other_end board.old × Empty count_start board.old }
    ensures answer { result ≡ same_numbers (segment from end board.old) (segment other_from other_end board.old) }
    ensures kept { board.new ≡ board.old }
{
    if end - from != other_end - other_from {
        return false;
    }
    count_up(board, from, end);
    if count_down(board, other_from, other_end) {
        return true;
    }
    clear_counts(board, from, end);
    false
}

// Whether two elements have as many places of each number.
// A bool answers the question: the board is lent to count in and comes back as it was.
fn same_places(board: &mut [u16], cells: usize, x: usize, y: usize) -> bool
    requires { Ready cells board.old × (x < 128) × (y < 128) }
    ensures answer { result ≡ same_numbers (places_on cells board.old x) (places_on cells board.old y) }
    ensures kept { board.new ≡ board.old }
{
    let from = board[STARTS + x] as usize;
    let end = end_of(board, cells, x);
    let other_from = board[STARTS + y] as usize;
    let other_end = end_of(board, cells, y);
    same_numbers(board, from, end, other_from, other_end)
}

// Whether two elements have the same key (`refinement_keys` of model_hom.rs).
// A bool answers the question: the board is lent to count in and comes back as it was.
pub(crate) fn same_key(board: &mut [u16], cells: usize, x: usize, y: usize) -> bool
    requires { Ready cells board.old × (x < 128) × (y < 128) }
    ensures answer { result ≡ alike_on cells board.old x y }
    ensures kept { board.new ≡ board.old }
{
    let own = colour_of(board, x as u16);
    let other = colour_of(board, y as u16);
    if own != other {
        return false;
    }
    same_places(board, cells, x, y)
}
