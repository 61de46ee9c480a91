// One round over both models: new colours by the keys, from one palette for both sides.
ghost use Rattle.std.specs.Prelude.{◌≡◌, true, [], ◌+◌, ◌≤◌, length, get_or, take};
ghost use Rattle.stored.specs.Model.{size};
ghost use Rattle.stored.specs.File.{held};
ghost use Rattle.rounds.specs.Round as rounds;
ghost use Rattle.rounds.specs.Board.{board_room, over_at, Board, Prepared};

use crate::board::{lay, list_cells};
use crate::group::group_sides;
use crate::numbers::{clear_heads, number_cells};
use stored::matched::Matched;

const COLOURS: usize = 20608;

const OTHER_COLOURS: usize = 20672;

// Lays both models out on a board, whose table of counts is emptied; answers how many cells there are.
pub fn set_up(both: &Matched<'_, '_>, board: &mut [u16]) -> usize
    requires { length board.old ≡ board_room }
    ensures { Board (held both.now.left) (held both.now.right) result board.new }
{
    clear_heads(board, 4096);
    let cells = lay(both, board);
    list_cells(board, cells);
    cells
}

// Writes colours on the board, from a place on.
fn write_colours(colours: &[u16], board: &mut [u16], start: usize)
    requires { (length board.old ≡ board_room) × (start + length colours.now ≤ board_room) }
    ensures { board.new ≡ over_at start colours.now board.old }
{
    board[start..start + colours.len()].copy_from_slice(colours);
}

// Puts the colours of both sides on the board, and numbers its cells by them.
fn prepare(
    both: &Matched<'_, '_>,
    cells: usize,
    left_colours: &[u16],
    right_colours: &[u16],
    board: &mut [u16],
)
    requires { Board (held both.now.left) (held both.now.right) cells board.old × (length left_colours.now ≡ size (held both.now.left)) × (length right_colours.now ≡ size (held both.now.right)) }
    ensures { Prepared (held both.now.left) (held both.now.right) cells left_colours.now right_colours.now board.new }
{
    write_colours(left_colours, board, COLOURS);
    write_colours(right_colours, board, OTHER_COLOURS);
    number_cells(both, board, cells);
}

// Recolours both sides, each over the front of its output.
fn recolour(
    both: &Matched<'_, '_>,
    cells: usize,
    left_colours: &mut [u16],
    right_colours: &mut [u16],
    board: &mut [u16],
)
    requires { Board (held both.now.left) (held both.now.right) cells board.old × (length left_colours.old ≡ size (held both.now.left)) × (length right_colours.old ≡ size (held both.now.right)) }
    ensures recoloured { record { left = left_colours.new; right = right_colours.new } ≡ rounds.round (held both.now.left) (held both.now.right) (record { left = left_colours.old; right = right_colours.old }) }
    ensures board { Board (held both.now.left) (held both.now.right) cells board.new }
{
    prepare(both, cells, left_colours, right_colours, board);
    let roots = both.left.roots();
    let other_roots = both.right.roots();
    group_sides(
        board,
        cells,
        roots,
        other_roots,
        left_colours,
        right_colours,
    );
}

// Two rows of 64 colours, one for each model.
pub type Rows = [[u16; 64]; 2];

// One round: the colours of both sides, in two rows of 64, recoloured (`refine_colors` of model_hom.rs).
pub fn round(both: &Matched<'_, '_>, cells: usize, colours: Rows, board: &mut [u16]) -> Rows
    requires { Board (held both.now.left) (held both.now.right) cells board.old × (length (get_or colours 0 []) ≡ 64) × (length (get_or colours 1 []) ≡ 64) }
    ensures recoloured { record { left = take (size (held both.now.left)) (get_or result 0 []); right = take (size (held both.now.right)) (get_or result 1 []) } ≡ rounds.round (held both.now.left) (held both.now.right) (record { left = take (size (held both.now.left)) (get_or colours 0 []); right = take (size (held both.now.right)) (get_or colours 1 []) }) }
    ensures shape { (length result ≡ 2) × (length (get_or result 0 []) ≡ 64) × (length (get_or result 1 []) ≡ 64) }
    ensures board { Board (held both.now.left) (held both.now.right) cells board.new }
{
    let n = both.left.size();
    let m = both.right.size();
    let mut row = colours[0];
    let mut other = colours[1];
    recolour(both, cells, &mut row[..n], &mut other[..m], board);
    [row, other]
}
