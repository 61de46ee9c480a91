// A program that reads a stored model from standard input and says what it holds, one fact a line, or which field is at fault.

#![tactic(auto)]

mod model;
mod printer;

use printer::Printer;
use std::fmt;
use std::fmt::Write;
use stored::file::File;

// The most bytes of standard input that are read. That is enough: a good file has at most 2,361 bytes, and so have the fields before the first that is at
// fault, so a longer input has its fault, and the same offset, within the first 4,096 bytes.
const MOST: usize = 4096;

// Says what some bytes hold.
fn show(out: &mut Printer, s: &[u8]) -> fmt::Result {
    match File::read(s) {
        Ok(file) => model::show_model(out, &file),
        Err(fault) => writeln!(out, "malformed: the field at offset {}", fault.offset),
    }
}

// Where reading fails the input ends. The input's buffer has a fixed size, since the program has no heap.
fn main() {
    let mut input = [0; MOST];
    let n = io::read_full(0, &mut input);
    let _ = show(&mut Printer, &input[..n]);
}
