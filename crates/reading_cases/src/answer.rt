// The reader's answers, and how they are written in a row.
use std::fmt;
use stored::read::read;
use stored::refusal::Fault;

// What the reader answers: the fault of some bytes, or none where they hold a model.
#[derive(Clone, Copy, PartialEq, Eq)]
pub(crate) struct Answer(pub(crate) Option<Fault>);

impl Answer {
    // What the reader answers on some bytes.
    pub(crate) fn on(s: &[u8]) -> Answer {
        Answer(read(s).err())
    }
}

// An answer in a row of several: short.
impl fmt::Display for Answer {
    fn fmt<W: fmt::Write>(&self, f: &mut fmt::Formatter<W>) -> fmt::Result {
        match self.0 {
            None => write!(f, "m"),
            Some(fault) => write!(f, "{}", fault.offset),
        }
    }
}

// The answers on every cut of a file, a space between them.
#[derive(Drop)]
pub(crate) struct Cuts<'a>(pub(crate) &'a [u8]);

impl fmt::Display for Cuts<'_> {
    fn fmt<W: fmt::Write>(&self, f: &mut fmt::Formatter<W>) -> fmt::Result {
        for n in 0..self.0.len() {
            if 0 < n {
                write!(f, " ")?;
            }
            write!(f, "{}", Answer::on(&self.0[..n]))?;
        }
        Ok(())
    }
}
