// The lines of the input, each a call.
use crate::printer::Printer;
use crate::reply::Reply;
use crate::{finds, maps};
use rows::check::check;
use rows::inverse::inverse;
use std::fmt;
use std::fmt::Write;

// What is answered on a line; none where it is no call.
fn replay(line: &[u8]) -> Option<Reply> {
    let is_space = |c: &u8| *c == b' ';
    // A call has no more words than these places.
    let mut places = [&line[..0]; 9];
    for (place, word) in places.iter_mut().zip(line.split(is_space)) {
        *place = word;
    }
    match places.get(..line.split(is_space).count())? {
        [b"identity", model, length] => maps::replay_identity(model, length),
        [b"check", source, target, pairs, length] => {
            maps::replay_two(check, source, target, pairs, length)
        }
        [b"apply", source, target, map, element] => {
            maps::replay_apply(source, target, map, element)
        }
        [b"compose", source, middle, target, first, second, length] => {
            maps::replay_compose(source, middle, target, first, second, length)
        }
        [b"inverse", source, target, map, length] => {
            maps::replay_two(inverse, source, target, map, length)
        }
        [b"find", left, right, budget, length, work] => {
            finds::replay_find(left, right, budget, length, work)
        }
        [b"pairs", left, right, pairs, budget, length, work] => {
            finds::replay_pairs(left, right, pairs, budget, length, work)
        }
        [
            b"under",
            base,
            left,
            right,
            to_left,
            to_right,
            budget,
            length,
            work,
        ] => { finds::replay_under(base, left, right, to_left, to_right, budget, length, work) }
        _ => None,
    }
}

// All lines.
pub(crate) fn replay_all(out: &mut Printer, text: &[u8]) -> fmt::Result {
    for line in text.split_inclusive(|c| *c == b'\n') {
        let line = line.strip_suffix(b"\n").unwrap_or(line);
        match replay(line) {
            Some(reply) => writeln!(out, "{reply}")?,
            None => writeln!(out, "?")?,
        }
    }
    Ok(())
}
