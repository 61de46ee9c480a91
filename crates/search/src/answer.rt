// What the calls of the search answer. `specs/Answer.antt` gives the number and the carried values of each.
use stored::refusal::Refusal;

// How a search ended: an isomorphism was found, there is none, or the budget is exhausted. Each carries the units used.
#[derive(Clone, Copy, PartialEq, Eq)]
pub enum Verdict {
    Found(u64),
    None(u64),
    Exhausted(u64),
}

// How the search ended, or why the call was refused.
pub type Answer = Result<Verdict, Refusal>;
