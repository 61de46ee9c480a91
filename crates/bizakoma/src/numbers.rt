// The number of an answer, with the values it carries put in the caller's three places.
ghost use Rattle.std.specs.Prelude.{◌≡◌, [], ◌∷◌};
ghost use Rattle.stored.specs.Refusal.{numbers as refusalNumbers};
ghost use Rattle.rows.specs.Answer.{numbers as answerNumbers, applied_numbers};
ghost use Rattle.search.specs.Answer.{numbers as searchedNumbers};
ghost use Rattle.bizakoma.specs.Numbers.{number_of, carried_of};

use rows::answer::{Answer, Ended};
use search::answer::{Answer as Searched, Verdict};
use stored::model::Element;
use stored::refusal::Refusal;

// The three places.
pub type Carried = [u64; 3];

// A number and the values it carries, with 0 in the places that are not used.
#[derive(Clone, Copy)]
pub(crate) struct Numbers {
    number: u32,
    carried: Carried,
}

// A number that carries nothing.
fn alone(number: u32) -> Numbers
    ensures number { result.number ≡ number }
    ensures carried { result.carried ≡ 0 ∷ 0 ∷ 0 ∷ [] }
{
    Numbers {
        number,
        carried: [0, 0, 0],
    }
}

// A number that carries one value.
fn with_one(number: u32, value: u64) -> Numbers
    ensures number { result.number ≡ number }
    ensures carried { result.carried ≡ value ∷ 0 ∷ 0 ∷ [] }
{
    Numbers {
        number,
        carried: [value, 0, 0],
    }
}

// A number that carries two values.
fn with_two(number: u32, value: u64, other: u64) -> Numbers
    ensures number { result.number ≡ number }
    ensures carried { result.carried ≡ value ∷ other ∷ 0 ∷ [] }
{
    Numbers {
        number,
        carried: [value, other, 0],
    }
}

impl Numbers {
    // Puts the values in the caller's places, and gives the number.
    pub(crate) fn tell(self, carried: &mut Carried) -> u32
        ensures number { result ≡ self.number }
        ensures carried { carried.new ≡ self.carried }
    {
        let Numbers {
            number,
            carried: values,
        } = self;
        *carried = values;
        number
    }
}

impl From<Refusal> for Numbers {
    ghost from_gives = { λ refusal result. (result.number ≡ number_of (refusalNumbers refusal)) × (result.carried ≡ carried_of (refusalNumbers refusal)) };

    fn from(refusal: Refusal) -> Numbers {
        match refusal {
            Refusal::Malformed { model, fault } => {
                with_two(10, u64::from(model), fault.offset as u64)
            }
            Refusal::NoRoom => alone(11),
            Refusal::NotCanonical { model } => with_one(12, u64::from(model)),
            Refusal::SignaturesDiffer => alone(13),
            Refusal::UnknownElement { place, side } => {
                with_two(14, place as u64, u64::from(side))
            }
            Refusal::TypesDiffer { place } => with_one(15, place as u64),
            Refusal::ImageMissing(element) => with_one(16, u64::from(element.0)),
            Refusal::ConflictingImages(element) => with_one(17, u64::from(element.0)),
            Refusal::RelationNotKept(relation) => with_one(18, u64::from(relation.0)),
            Refusal::NotAMap { map } => with_one(19, u64::from(map)),
            Refusal::OddPairs => alone(20),
        }
    }
}

// Of a call that writes a map.
impl From<Answer> for Numbers {
    ghost from_gives = { λ answer result. (result.number ≡ number_of (answerNumbers answer)) × (result.carried ≡ carried_of (answerNumbers answer)) };

    fn from(answer: Answer) -> Numbers {
        match answer {
            Ok(Ended::Accepted) => alone(0),
            Ok(Ended::None) => alone(1),
            Err(refusal) => Numbers::from(refusal),
        }
    }
}

// Of apply.
impl From<Result<Element, Refusal>> for Numbers {
    ghost from_gives = { λ answer result. (result.number ≡ number_of (applied_numbers answer)) × (result.carried ≡ carried_of (applied_numbers answer)) };

    fn from(answer: Result<Element, Refusal>) -> Numbers {
        match answer {
            Ok(element) => with_one(0, u64::from(element.0)),
            Err(refusal) => Numbers::from(refusal),
        }
    }
}

// Of a call of the search.
impl From<Searched> for Numbers {
    ghost from_gives = { λ answer result. (result.number ≡ number_of (searchedNumbers answer)) × (result.carried ≡ carried_of (searchedNumbers answer)) };

    fn from(answer: Searched) -> Numbers {
        match answer {
            Ok(Verdict::Found(units)) => with_one(0, units),
            Ok(Verdict::None(units)) => with_one(1, units),
            Ok(Verdict::Exhausted(units)) => with_one(2, units),
            Err(refusal) => Numbers::from(refusal),
        }
    }
}
