// The answer to a job, as the line that is printed.
ghost use Rattle.std.specs.Prelude.{◌≤◌, ◌≡◌, [], ◌∷◌, length, take};
ghost use Rattle.stored.specs.Refusal.{numbers as refusalNumbers};
ghost use Rattle.search.specs.Answer.{numbers, work_room};
ghost use Rattle.search.specs.Find.{find_files};
ghost use Rattle.io.specs.Counts.{IsPrefixLen};
ghost use Rattle.job.specs.Line.{listed, line_with, found_line, line_of, map_room};
ghost use Rattle.job.specs.Writing.{elements_in, entries_of, line_room, Added, numbers_room};

use crate::job::read_job;
use crate::line::{put, put_map, put_number, put_values};
use search::answer::{Answer, Verdict};
use search::find::find_with_pairs;
use stored::read::read;
use stored::refusal::Refusal;

// Room for a map: a model has at most so many elements.
const MAP_ROOM: usize = 64;

// The work that find is lent.
const WORK_ROOM: usize = 32768;

// Room for a line: none is longer.
const LINE_ROOM: usize = 1408;

// A line: the first `length` bytes of `text`.
// A buffer with a length beside: the program has no heap.
#[derive(Drop)]
pub struct Line {
    pub text: [u8; LINE_ROOM],
    pub length: usize,
    ghost within: { IsPrefixLen length text },
}

impl Line {
    // The bytes of the line.
    pub fn as_slice(&self) -> &[u8]
        ensures { result.now ≡ take self.now.length self.now.text }
    {
        &self.text[..self.length]
    }
}

// A number at the start of a line, and the values that it carries.
#[tactic(auto, using(crate::proofs::Laws::Line::added_more), unfolding(crate::specs::Line::listed))]
fn put_numbers(line: &mut [u8], number: u64, values: &[u64]) -> usize
    requires { (numbers_room ≤ length line.old) × (length values.now ≤ 2) }
    ensures added { Added line.old 0 (listed (number ∷ values.now)) result line.new }
    ensures short { result ≤ numbers_room }
{
    let at = put_number(line, 0, number);
    put_values(line, at, values)
}

// The number of a refusal, and the values it carries.
// Written by hand: the line is made in a buffer of fixed size, with no heap.
fn put_refusal(line: &mut [u8], refusal: Refusal) -> usize
    requires { numbers_room ≤ length line.old }
    ensures added { Added line.old 0 (listed (refusalNumbers refusal)) result line.new }
    ensures short { result ≤ numbers_room }
{
    match refusal {
        Refusal::Malformed { model, fault } => {
            put_numbers(line, 10, &[u64::from(model), fault.offset as u64])
        }
        Refusal::NoRoom => put_numbers(line, 11, &[]),
        Refusal::NotCanonical { model } => put_numbers(line, 12, &[u64::from(model)]),
        Refusal::SignaturesDiffer => put_numbers(line, 13, &[]),
        Refusal::UnknownElement { place, side } => {
            put_numbers(line, 14, &[place as u64, u64::from(side)])
        }
        Refusal::TypesDiffer { place } => put_numbers(line, 15, &[place as u64]),
        Refusal::ImageMissing(element) => put_numbers(line, 16, &[u64::from(element.0)]),
        Refusal::ConflictingImages(element) => put_numbers(line, 17, &[u64::from(element.0)]),
        Refusal::RelationNotKept(relation) => put_numbers(line, 18, &[u64::from(relation.0)]),
        Refusal::NotAMap { map } => put_numbers(line, 19, &[u64::from(map)]),
        Refusal::OddPairs => put_numbers(line, 20, &[]),
    }
}

// The number of an answer, and the values it carries.
// Written by hand: the line is made in a buffer of fixed size, with no heap.
fn put_answer(line: &mut [u8], answer: Answer) -> usize
    requires { numbers_room ≤ length line.old }
    ensures added { Added line.old 0 (listed (numbers answer)) result line.new }
    ensures short { result ≤ numbers_room }
{
    match answer {
        Ok(Verdict::Found(units)) => put_numbers(line, 0, &[units]),
        Ok(Verdict::None(units)) => put_numbers(line, 1, &[units]),
        Ok(Verdict::Exhausted(units)) => put_numbers(line, 2, &[units]),
        Err(refusal) => put_refusal(line, refusal),
    }
}

// How many elements the model in a file has; 0 where the file holds none.
#[tactic(auto, using(crate::proofs::Laws::Found::elements_read, crate::proofs::Laws::Found::elements_none))]
fn elements(file: &[u8]) -> usize
    ensures is { result ≡ elements_in file.now }
    ensures few { result ≤ map_room }
{
    match read(file) {
        Ok(layout) => layout.size,
        Err(_) => 0,
    }
}

// How many entries the map of an answer has.
#[tactic(auto, unfolding(crate::specs::Writing::entries_of))]
fn map_length(answer: Answer, left: &[u8]) -> usize
    ensures is { result ≡ entries_of answer left.now }
    ensures few { result ≤ map_room }
{
    match answer {
        Ok(Verdict::Found(_)) => elements(left),
        Ok(Verdict::None(_) | Verdict::Exhausted(_)) | Err(_) => 0,
    }
}

// The line of an answer and its map, of which there is one only if the answer is 0.
#[tactic(auto, using(crate::proofs::Laws::Line::added_more), unfolding(crate::specs::Line::line_with))]
fn write_answer(line: &mut [u8], answer: Answer, map: &[u8]) -> usize
    requires { (line_room ≤ length line.old) × (length map.now ≤ map_room) }
    ensures { Added line.old 0 (line_with (numbers answer) map.now) result line.new }
{
    let at = put_answer(line, answer);
    let end = put_map(line, at, map);
    put(line, end, b"\n")
}

// The line of a find job.
fn write_find(line: &mut [u8], left: &[u8], right: &[u8], pairs: &[u8], budget: u64) -> usize
    requires { line_room ≤ length line.old }
    ensures { Added line.old 0 (found_line (find_files left.now right.now pairs.now budget map_room work_room)) result line.new }
{
    let mut map = [0; MAP_ROOM];
    let mut work = [0; WORK_ROOM];
    let answer = find_with_pairs(left, right, pairs, budget, &mut map, &mut work);
    let n = map_length(answer, left);
    write_answer(line, answer, &map[..n])
}

// The line of a broken job.
#[tactic(auto, using(crate::proofs::Laws::Line::added_more), unfolding(crate::specs::Line::line_with, crate::specs::Line::spaced))]
fn write_broken(line: &mut [u8]) -> usize
    requires { line_room ≤ length line.old }
    ensures { Added line.old 0 (line_with (21 ∷ []) []) result line.new }
{
    let at = put_numbers(line, 21, &[]);
    put(line, at, b"\n")
}

// The line of a job.
#[tactic(auto, using(crate::proofs::Laws::Job::job_within, crate::proofs::Laws::Found::line_of_job, crate::proofs::Laws::Found::line_of_broken))]
fn write_line(line: &mut [u8], job: &[u8]) -> usize
    requires { line_room ≤ length line.old }
    ensures { Added line.old 0 (line_of job.now) result line.new }
{
    match read_job(job) {
        Some(parts) => write_find(
            line,
            parts.left.of(job),
            parts.right.of(job),
            parts.pairs.of(job),
            parts.budget,
        ),
        None => write_broken(line),
    }
}

// The line that answers a job, whatever bytes it is made of.
#[tactic(auto, using(crate::proofs::Laws::Line::added_fits))]
pub fn answer_job(job: &[u8]) -> Line
    ensures is { take result.length result.text ≡ line_of job.now }
    ensures fits { IsPrefixLen result.length result.text }
{
    let mut text = [0; LINE_ROOM];
    let length = write_line(&mut text, job);
    Line { text, length }
}
