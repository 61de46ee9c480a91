// What is answered on a line.
use crate::numbers::Numbers;
use std::fmt;

// How many entries a call of the search may use.
const WORK_USED: usize = 32768;

// An entry of a work before the call.
pub(crate) const WORK_BEFORE: u16 = 0x5a5a;

// Of apply its number; of the calls that write a map their output too; of those of the search their work as well.
#[derive(Clone, Copy)]
pub(crate) enum Reply {
    Number(Numbers),
    Map(Numbers, Output),
    Search(Numbers, Output, Work),
}

// The output of a call: of these bytes, as many from the front.
#[derive(Clone, Copy)]
pub(crate) struct Output {
    pub(crate) bytes: [u8; 256],
    pub(crate) length: usize,
}

// What a call left in its work.
#[derive(Clone, Copy)]
pub(crate) enum Work {
    Cleared,
    Untouched,
    Other,
}

// Whether all entries are this one. Each is looked at, which costs less than to stop at the first other.
fn are_all(entries: &[u16], entry: u16) -> bool {
    entries
        .iter()
        .fold(true, |so_far, e| so_far & (*e == entry))
}

// Whether the entries that a call may use are zero, and the rest as before the call.
fn is_cleared(work: &[u16]) -> bool {
    let parts = work.split_at_checked(WORK_USED);
    parts.is_some_and(|(used, rest)| are_all(used, 0) && are_all(rest, WORK_BEFORE))
}

impl Work {
    pub(crate) fn left_in(entries: &[u16]) -> Work {
        if is_cleared(entries) {
            Work::Cleared
        } else if are_all(entries, WORK_BEFORE) {
            Work::Untouched
        } else {
            Work::Other
        }
    }
}

// In hex, two digits a byte, letters in lower case; `_` where there are none.
impl fmt::Display for Output {
    fn fmt<W: fmt::Write>(&self, f: &mut fmt::Formatter<W>) -> fmt::Result {
        if self.length == 0 {
            return write!(f, "_");
        }
        for byte in self.bytes.iter().take(self.length) {
            write!(f, "{byte:02x}")?;
        }
        Ok(())
    }
}

impl fmt::Display for Work {
    fn fmt<W: fmt::Write>(&self, f: &mut fmt::Formatter<W>) -> fmt::Result {
        match self {
            Work::Cleared => write!(f, "zero"),
            Work::Untouched => write!(f, "same"),
            Work::Other => write!(f, "other"),
        }
    }
}

impl fmt::Display for Reply {
    fn fmt<W: fmt::Write>(&self, f: &mut fmt::Formatter<W>) -> fmt::Result {
        match self {
            Reply::Number(numbers) => write!(f, "{numbers}"),
            Reply::Map(numbers, output) => write!(f, "{numbers} map {output}"),
            Reply::Search(numbers, output, work) => {
                write!(f, "{numbers} map {output} work {work}")
            }
        }
    }
}
