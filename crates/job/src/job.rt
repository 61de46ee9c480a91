// A job file: the left model, the right model, the pairs and the budget, each in a field of its own, then End and nothing after.
ghost use Rattle.std.specs.Prelude.{◌≡◌, ◌≢◌, length, MatchOption};
ghost use Rattle.job.specs.Job.{high_first, job_of};

use crate::reader::{Reader, Value};

// What a job file holds.
#[derive(Clone, Copy)]
pub struct Job {
    pub left: Value,
    pub right: Value,
    pub pairs: Value,
    pub budget: u64,
}

// The most bytes that a job has.
pub(crate) const MOST: usize = 8192;

const END: u8 = 0x00;

const LEFT: u8 = 0x10;

const RIGHT: u8 = 0x11;

const PAIRS: u8 = 0x12;

const BUDGET: u8 = 0x13;

// Eight bytes as a number, high byte first; none where there are more or fewer.
#[tactic(auto, using(crate::proofs::Laws::Job::eight_bytes))]
fn number(bytes: &[u8]) -> Option<u64>
    ensures { MatchOption result (length bytes.now ≢ 8) (λ n. (length bytes.now ≡ 8) × (n ≡ high_first 0 bytes.now)) }
{
    Some(u64::from_be_bytes(*bytes.as_array()?))
}

// What a job file holds; none where it is broken.
#[tactic(auto, using(crate::proofs::Laws::Reader::due_inside, lists::proofs::Laws::Part::length_part), unfolding(crate::specs::Job::job_of, crate::specs::Job::left_from, crate::specs::Job::right_from, crate::specs::Job::pairs_from, crate::specs::Job::budget_from, crate::specs::Job::end_from))]
pub(crate) fn read_job(job: &[u8]) -> Option<Job>
    ensures { result ≡ job_of job.now }
{
    if MOST < job.len() {
        return None;
    }
    let mut reader = Reader::new(job);
    let left = reader.due(LEFT)?;
    let right = reader.due(RIGHT)?;
    let pairs = reader.due(PAIRS)?;
    let budget = number(reader.due(BUDGET)?.of(job))?;
    let end = reader.due(END)?;
    if end.len != 0 || reader.at != job.len() {
        return None;
    }
    Some(Job {
        left,
        right,
        pairs,
        budget,
    })
}
