// What the calls answer. `specs/Answer.antt` gives the number and the carried values of each.
use stored::refusal::Refusal;

// How a call that writes a map ends where it refuses nothing: with a map, or with the answer that there is none.
#[derive(Clone, Copy, PartialEq, Eq)]
pub enum Ended {
    Accepted,
    None,
}

// Of a call that writes a map.
pub type Answer = Result<Ended, Refusal>;
