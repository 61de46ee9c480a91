// A program that replays a list of calls: standard input has one call a line, and its answer goes to standard output, a line for each. A
// call is its name and its arguments, between single spaces:
//
//     identity MODEL LENGTH
//     check SOURCE TARGET PAIRS LENGTH
//     apply SOURCE TARGET MAP ELEMENT
//     compose SOURCE MIDDLE TARGET MAP MAP LENGTH
//     inverse SOURCE TARGET MAP LENGTH
//     find LEFT RIGHT BUDGET LENGTH WORK
//     pairs LEFT RIGHT PAIRS BUDGET LENGTH WORK
//     under BASE LEFT RIGHT MAP MAP BUDGET LENGTH WORK
//
// Files, pair lists and maps are bytes in hex, `_` where there are none; an element is one byte in hex, and a budget sixteen digits; a
// length, in decimal, is that of the output that is lent, each byte of it a5 before the call. WORK, in decimal, is the number of work
// entries that are lent, each of them 5a5a before the call. The answer is its number and the values it carries, then, of each call but
// apply, `map` and all of the output after the call. Of find, pairs and under `work` follows, with `zero` where the first 32,768 entries
// are 0 and the rest as before the call, `same` where all are as before, or `other`. For any other line it prints `?`.

#![tactic(auto)]

mod arguments;
mod finds;
mod lines;
mod maps;
mod numbers;
mod printer;
mod reply;

use printer::Printer;
use std::fmt;
use std::fmt::Write;

// Replays the input, read into a buffer. One that fills the buffer is not replayed, since it may go on past it.
fn replay_input(out: &mut Printer, buffer: &mut [u8]) -> fmt::Result {
    let n = io::read_full(0, buffer);
    if n < buffer.len() {
        lines::replay_all(out, &buffer[..n])
    } else {
        writeln!(out, "too many calls")
    }
}

// Where reading fails the input ends. The input's buffer has a fixed size, so that a longer input is seen to be one.
fn main() {
    let mut buffer = [0; 1048576];
    let _ = replay_input(&mut Printer, &mut buffer);
}
