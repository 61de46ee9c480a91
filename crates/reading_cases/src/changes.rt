// A file with one byte changed, to each other value in turn.
ghost use Rattle.std.specs.Prelude.{◌≤◌, ◌<◌, ◌+◌, length, IfOk};

use crate::answer::Answer;
use crate::printer::Printer;
use std::fmt;
use std::fmt::Write;

// Equal answers in a row: which, and how many.
#[derive(Clone, Copy)]
struct Run {
    answer: Answer,
    count: usize,
}

impl fmt::Display for Run {
    fn fmt<W: fmt::Write>(&self, f: &mut fmt::Formatter<W>) -> fmt::Result {
        write!(f, "{}x{}", self.answer, self.count)
    }
}

impl Run {
    // The run with one answer more. If that is another answer, the run is written, and a new one begins.
    fn with(self, answer: Answer, out: &mut Printer) -> Result<Run, fmt::Error>
        requires { self.count < 256 }
        ensures { IfOk result (λ run. run.count ≤ self.count + 1) }
    {
        if answer == self.answer {
            return Ok(Run {
                answer,
                count: self.count + 1,
            });
        }
        if 0 < self.count {
            write!(out, "{self} ")?;
        }
        Ok(Run { answer, count: 1 })
    }
}

// The line for byte i, which stands as it was in the end.
fn replay_byte(out: &mut Printer, file: &mut [u8], i: usize) -> fmt::Result
    requires { i < length file.old }
{
    let old = file[i];
    let mut run = Run {
        answer: Answer(None),
        count: 0,
    };
    for value in 0..=255u8 {
        if value != old {
            file[i] = value;
            run = run.with(Answer::on(file), out)?;
        }
    }
    file[i] = old;
    writeln!(out, "{run}")
}

// A line for each byte.
pub(crate) fn replay(out: &mut Printer, file: &mut [u8]) -> fmt::Result {
    for i in 0..file.len() {
        replay_byte(out, file, i)?;
    }
    Ok(())
}
