// The lines of the input, each a case.
use crate::answer::{Answer, Cuts};
use crate::changes;
use crate::printer::Printer;
use std::fmt;
use std::fmt::Write;

// The most bytes of a file in a case. A good file has at most 2,361.
const MOST: usize = 4096;

// A line that is no case.
fn replay_broken(out: &mut Printer) -> fmt::Result {
    writeln!(out, "?")
}

// A case by its kind.
fn replay_kind(out: &mut Printer, kind: u8, file: &mut [u8]) -> fmt::Result {
    match kind {
        b'=' => match Answer::on(file).0 {
            None => writeln!(out, "model"),
            Some(fault) => writeln!(out, "{}", fault.offset),
        },
        b'<' => writeln!(out, "{}", Cuts(file)),
        b'~' => changes::replay(out, file),
        _ => replay_broken(out),
    }
}

// A line. One with more bytes than there is room for is broken, and so is one with a digit in upper case, which `hex` would take.
fn replay(out: &mut Printer, line: &[u8]) -> fmt::Result {
    let Some((kind, digits)) = line.split_first() else {
        return replay_broken(out);
    };
    let size = digits.len() / 2;
    if MOST < size || digits.iter().any(|c| c.is_ascii_uppercase()) {
        return replay_broken(out);
    }
    let mut bytes = [0; MOST];
    let file = &mut bytes[..size];
    match hex::decode_to_slice(digits, file) {
        Ok(()) => replay_kind(out, *kind, file),
        Err(_) => replay_broken(out),
    }
}

// All lines. The last may have no line feed.
pub(crate) fn replay_all(out: &mut Printer, text: &[u8]) -> fmt::Result {
    for line in text.split_inclusive(|c| *c == b'\n') {
        replay(out, line.strip_suffix(b"\n").unwrap_or(line))?;
    }
    Ok(())
}
