// A program that answers one find job: it reads the job file from standard input and writes one line to standard output.
//
// `answer::answer_job` says what the line is, for every input; here the bytes are read and the line is written. The buffer is one byte longer
// than the longest job, so that a longer input is seen to be one. Both go by `io` and by no runtime: of the C library the program then rests on
// `read` and `write` alone, and it needs no heap.

#![tactic(auto)]

mod answer;
mod job;
mod line;
mod reader;

// One byte more than the longest job.
const ROOM: usize = job::MOST + 1;

fn main() {
    let mut input = [0; ROOM];
    let n = io::read_full(0, &mut input);
    let line = answer::answer_job(&input[..n]);
    io::write_all(1, line.as_slice());
}
