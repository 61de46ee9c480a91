// The number of an answer, with the values it carries.
ghost use Rattle.std.specs.Prelude.{◌≡◌, [], ◌∷◌};
ghost use Rattle.stored.specs.Refusal.{numbers as refusalNumbers};
ghost use Rattle.rows.specs.Answer.{numbers as answerNumbers, applied_numbers};
ghost use Rattle.search.specs.Answer.{numbers as searchedNumbers};
ghost use Rattle.vectors.specs.Numbers.{listed};

use rows::answer::{Answer, Ended};
use search::answer::{Answer as Searched, Verdict};
use std::fmt;
use stored::model::Element;
use stored::refusal::Refusal;

// The values that an answer carries.
#[derive(Clone, Copy)]
pub enum Carried {
    Nothing,
    One(usize),
    Two(usize, usize),
}

// A number, and what it carries.
#[derive(Clone, Copy)]
pub struct Numbers {
    pub number: usize,
    pub carried: Carried,
}

// A number that carries nothing.
fn alone(number: usize) -> Numbers
    ensures { listed result ≡ number ∷ [] }
{
    Numbers {
        number,
        carried: Carried::Nothing,
    }
}

// A number that carries one value.
fn with_one(number: usize, value: usize) -> Numbers
    ensures { listed result ≡ number ∷ value ∷ [] }
{
    Numbers {
        number,
        carried: Carried::One(value),
    }
}

// A number that carries two values.
fn with_two(number: usize, value: usize, other: usize) -> Numbers
    ensures { listed result ≡ number ∷ value ∷ other ∷ [] }
{
    Numbers {
        number,
        carried: Carried::Two(value, other),
    }
}

// With a space before each value.
impl fmt::Display for Numbers {
    fn fmt<W: fmt::Write>(&self, f: &mut fmt::Formatter<W>) -> fmt::Result {
        let number = self.number;
        match self.carried {
            Carried::Nothing => write!(f, "{number}"),
            Carried::One(value) => write!(f, "{number} {value}"),
            Carried::Two(value, other) => write!(f, "{number} {value} {other}"),
        }
    }
}

impl From<Refusal> for Numbers {
    ghost from_gives = { λ refusal result. listed result ≡ refusalNumbers refusal };

    fn from(refusal: Refusal) -> Numbers {
        match refusal {
            Refusal::Malformed { model, fault } => with_two(10, model as usize, fault.offset),
            Refusal::NoRoom => alone(11),
            Refusal::NotCanonical { model } => with_one(12, model as usize),
            Refusal::SignaturesDiffer => alone(13),
            Refusal::UnknownElement { place, side } => with_two(14, place, side as usize),
            Refusal::TypesDiffer { place } => with_one(15, place),
            Refusal::ImageMissing(element) => with_one(16, element.0 as usize),
            Refusal::ConflictingImages(element) => with_one(17, element.0 as usize),
            Refusal::RelationNotKept(relation) => with_one(18, relation.0 as usize),
            Refusal::NotAMap { map } => with_one(19, map as usize),
            Refusal::OddPairs => alone(20),
        }
    }
}

// Of a call that writes a map.
impl From<Answer> for Numbers {
    ghost from_gives = { λ answer result. listed result ≡ answerNumbers answer };

    fn from(answer: Answer) -> Numbers {
        match answer {
            Ok(Ended::Accepted) => alone(0),
            Ok(Ended::None) => alone(1),
            Err(refusal) => Numbers::from(refusal),
        }
    }
}

// Of a call of the search.
impl From<Searched> for Numbers {
    ghost from_gives = { λ answer result. listed result ≡ searchedNumbers answer };

    fn from(answer: Searched) -> Numbers {
        match answer {
            Ok(Verdict::Found(units)) => with_one(0, units as usize),
            Ok(Verdict::None(units)) => with_one(1, units as usize),
            Ok(Verdict::Exhausted(units)) => with_one(2, units as usize),
            Err(refusal) => Numbers::from(refusal),
        }
    }
}

// Of apply.
impl From<Result<Element, Refusal>> for Numbers {
    ghost from_gives = { λ answer result. listed result ≡ applied_numbers answer };

    fn from(answer: Result<Element, Refusal>) -> Numbers {
        match answer {
            Ok(element) => with_one(0, element.0 as usize),
            Err(refusal) => Numbers::from(refusal),
        }
    }
}
