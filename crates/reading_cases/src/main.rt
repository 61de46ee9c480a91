// A program that replays reading cases: standard input has one case a line, and the reader's answers go to standard output. A case is a
// character and a file's bytes in hex:
//
//     =HEX   the file as it is: one line, `model` or the offset of the field at fault
//     <HEX   every cut of the file, from none of its bytes to all but the last: one line, `m` or the offset for each, between spaces
//     ~HEX   each byte changed to each of the 255 other values: a line for each byte, the answers in the order of the values, `m` or the
//            offset, then `x` and how many there are in a row
//
// For any other line it prints `?`.

#![tactic(auto)]

mod answer;
mod changes;
mod lines;
mod printer;

use printer::Printer;
use std::fmt;
use std::fmt::Write;

// An input of so many bytes or more is not replayed, since it may go on past the room for it.
const TOO_MANY: usize = 262144;

// Replays the input, unless there is too much of it.
fn replay_input(out: &mut Printer, text: &[u8]) -> fmt::Result {
    if text.len() < TOO_MANY {
        lines::replay_all(out, text)
    } else {
        writeln!(out, "too many cases")
    }
}

// Where reading fails the input ends. The input's buffer has a fixed size, since the program has no heap.
fn main() {
    let mut input = [0; TOO_MANY];
    let n = io::read_full(0, &mut input);
    let _ = replay_input(&mut Printer, &input[..n]);
}
