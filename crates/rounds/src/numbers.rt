// A number for each cell, equal exactly where the places are: relation, column, colours along the row. Rows are numbered by buckets of rows with different colours.
ghost use Rattle.std.specs.Prelude.{◌≡◌, true, [], ◌∷◌, ℕ, ◌≤◌, ◌<◌, ◌+◌, ◌*◌, length, get_or};
ghost use Rattle.lists.specs.First.{first_at};
ghost use Rattle.lists.specs.Numbers.{up_from};
ghost use Rattle.lists.specs.Order.{same_row};
ghost use Rattle.stored.specs.File.{held};
ghost use Rattle.rounds.specs.Colours.{colour_at};
ghost use Rattle.rounds.specs.Board.{board_room, count_start, colours_on, line_at, lines_on, code_of, buckets_for, bucket_of, bucket_at, Bucketed, kept_line, row_numbers_at, numbers_from, joined, cells_of, cells_on, Listed, NumbersAt, Scattered, Bucketing, Cleared, Renumbered, Empty};

use stored::matched::Matched;

const POSITIONS: usize = 4096;

const NUMBERS: usize = 8192;

const COUNTS: usize = 12288;

const LINKS: usize = 16384;

const COLOURS: usize = 20608;

// The colour of an element on the board.
pub(crate) fn colour_of(board: &[u16], x: u16) -> u16
    requires { (length board.now ≡ board_room) × (x < 128) }
    ensures { result ≡ colour_at (colours_on board.now) x }
{
    board[COLOURS + x as usize]
}

// Whether the colours along two rows of cells are the same.
#[inline(always)]
fn same_line(board: &[u16], p: usize, q: usize, arity: usize) -> bool
    requires { (length board.now ≡ board_room) × (p + arity ≤ 4096) × ((n : ℕ) → n < arity → get_or board.now (p + n) 0 < 128) × (q + arity ≤ 4096) × ((n : ℕ) → n < arity → get_or board.now (q + n) 0 < 128) }
    ensures { result ≡ same_row (line_at board.now p arity) (line_at board.now q arity) }
{
    for j in 0..arity {
        let x = colour_of(board, board[p + j]);
        let y = colour_of(board, board[q + j]);
        if x != y {
            return false;
        }
    }
    true
}

// A code of the colours along a row of cells.
#[inline(always)]
fn code_of(board: &[u16], p: usize, arity: usize) -> usize
    requires { (length board.now ≡ board_room) × (p + arity ≤ 4096) × ((n : ℕ) → n < arity → get_or board.now (p + n) 0 < 128) }
    ensures { result ≡ code_of (line_at board.now p arity) }
{
    let mut code = 0;
    for x in &board[p..p + arity] {
        let colour = colour_of(board, *x);
        code = (code * 101 + colour as usize) % 4096;
    }
    code
}

// How many buckets there are for so many rows.
fn buckets_for(rows: usize) -> usize
    ensures { result ≡ buckets_for rows }
{
    if rows <= 64 {
        64
    } else if rows <= 512 {
        512
    } else {
        4096
    }
}

// The bucket of a code, for so many rows.
fn bucket_of(code: usize, rows: usize) -> usize
    ensures { result ≡ bucket_of rows code }
{
    code % buckets_for(rows)
}

// The first cell of the first row with the colours of row `place`, whose first cell is p: that of a row in its bucket, or its own.
#[inline(always)]
fn first_line(
    board: &[u16],
    base: usize,
    arity: usize,
    rows: usize,
    place: usize,
    p: usize,
    bucket: usize,
) -> usize
    requires { (length board.now ≡ board_room) × (1 ≤ arity) × (base + rows * arity ≤ 4096) × ((n : ℕ) → n < base + rows * arity → get_or board.now n 0 < 128) × (place < rows) × (p ≡ base + place * arity) × (bucket ≡ bucket_at rows (lines_on board.now base arity rows) place) × Bucketed base arity rows (lines_on board.now base arity rows) board.now place }
    ensures { result ≡ base + first_at (same_row (get_or (lines_on board.now base arity rows) place [])) (lines_on board.now base arity rows) * arity }
{
    let mut q = board[COUNTS + bucket] as usize;
    // Follows links, no index is counted.
    while 0 < q {
        let at = q - 1;
        if same_line(board, p, at, arity) {
            return at;
        }
        q = board[LINKS + at] as usize;
    }
    p
}

// Puts a row in its bucket if its first cell p is `first`, that of the first row with its colours.
fn keep_line(board: &mut [u16], p: usize, first: usize, bucket: usize)
    requires { (length board.old ≡ board_room) × (p < 4096) × (bucket < 4096) }
    ensures { board.new ≡ kept_line p first bucket board.old }
{
    if first == p {
        board[LINKS + p] = board[COUNTS + bucket];
        board[COUNTS + bucket] = (p + 1) as u16;
    }
}

// Writes the numbers from `first` on at the positions of the cells from p on, so many.
#[inline(always)]
fn write_numbers(board: &mut [u16], cells: usize, p: usize, first: usize, count: usize)
    requires { Listed cells board.old × (p + count ≤ cells) × (first + count ≤ 4096) }
    ensures written { NumbersAt cells p (up_from first count) board.new }
    ensures kept { Scattered cells p board.old board.new }
{
    for j in 0..count {
        let position = board[POSITIONS + p + j] as usize;
        board[NUMBERS + position] = (first + j) as u16;
    }
}

// Numbers the cells of a relation that has columns, whose first cell is `base`; the heads of its buckets are left.
#[inline(always)]
fn number_rows(board: &mut [u16], cells: usize, base: usize, arity: usize, rows: usize)
    requires { Listed cells board.old × (base + rows * arity ≤ cells) × (1 ≤ arity) × Empty count_start board.old }
    ensures numbers { NumbersAt cells base (row_numbers_at base arity rows board.old) board.new }
    ensures kept { Bucketing cells base (buckets_for rows) board.old board.new }
{
    let mut at = base;
    for i in 0..rows {
        let code = code_of(board, at, arity);
        let bucket = bucket_of(code, rows);
        let first = first_line(board, base, arity, rows, i, at, bucket);
        keep_line(board, at, first, bucket);
        write_numbers(board, cells, at, first, arity);
        at += arity;
    }
}

// Empties the first so many entries of the table of counts.
pub(crate) fn clear_heads(board: &mut [u16], count: usize)
    requires { (length board.old ≡ board_room) × (count ≤ 4096) }
    ensures { Cleared count board.old board.new }
{
    board[COUNTS..COUNTS + count].fill(0);
}

// Numbers the cells of a relation, whose first cell is `base`. The table of counts is empty before and after.
fn number_relation(board: &mut [u16], cells: usize, base: usize, arity: usize, rows: usize)
    requires { Listed cells board.old × (base + rows * arity ≤ cells) × Empty count_start board.old }
    ensures numbers { NumbersAt cells base (row_numbers_at base arity rows board.old) board.new }
    ensures kept { Renumbered cells base board.old board.new }
{
    if 0 < arity {
        let buckets = buckets_for(rows);
        // A call of its own for two columns: with their number known, the loops along a row are unrolled.
        if arity == 2 {
            number_rows(board, cells, base, 2, rows);
        } else {
            number_rows(board, cells, base, arity, rows);
        }
        clear_heads(board, buckets);
    }
}

// Numbers all cells of a board on which two models stand.
pub(crate) fn number_cells(both: &Matched<'_, '_>, board: &mut [u16], cells: usize)
    requires { Listed cells board.old × Empty count_start board.old × (cells ≡ length (cells_of (joined (held both.now.left) (held both.now.right)))) × (cells_on cells board.old ≡ cells_of (joined (held both.now.left) (held both.now.right))) }
    ensures numbers { NumbersAt cells 0 (numbers_from 0 (colours_on board.old) (joined (held both.now.left) (held both.now.right))) board.new }
    ensures kept { Renumbered cells 0 board.old board.new }
{
    let mut at: usize = 0;
    let left = &both.left.layout;
    let right = &both.right.layout;
    for k in 0..left.relations {
        let arity = left.arity[k];
        let rows = left.count[k] + right.count[k];
        number_relation(board, cells, at, arity, rows);
        at += rows * arity;
    }
}
