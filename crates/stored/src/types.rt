// The value of Types: the number of elements of each type.
ghost use Rattle.std.specs.Prelude.{◌≡◌, ◌≤◌, length};
ghost use Rattle.lists.specs.Numbers.{sum};
ghost use Rattle.stored.specs.Limits.{max_types};
ghost use Rattle.stored.specs.Types.{types_hold, type_in};
ghost use Rattle.stored.specs.Layout.{table, firsts_from};

use crate::model::{Element, TypeId};

// How many elements there are, summed in a wide number.
pub(crate) fn total(types: &[u8]) -> usize
    requires { length types.now ≤ max_types }
    ensures { result ≡ sum types.now }
{
    types.iter().map(|n| usize::from(*n)).sum()
}

// Whether the value keeps the rules.
#[tactic(auto, unfolding(crate::specs::Types::types_hold))]
pub(crate) fn types_hold(types: &[u8]) -> bool
    ensures { result ≡ types_hold types.now }
{
    if 16 < types.len() {
        return false;
    }
    let n = total(types);
    n <= 64
}

// The type of an element; the number of types for what is no element.
#[tactic(auto, using(crate::proofs::Laws::Types::type_cases))]
pub fn type_in(types: &[u8], e: Element) -> TypeId
    requires { length types.now ≤ max_types }
    ensures { result.0 ≡ type_in types.now e.0 }
{
    let mut left = usize::from(e.0);
    for (t, n) in types.iter().enumerate() {
        let n = usize::from(*n);
        if left < n {
            return TypeId(t as u16);
        }
        left -= n;
    }
    TypeId(types.len() as u16)
}

// The first element of each type.
pub(crate) fn first_elements(types: &[u8]) -> [usize; 16]
    requires { length types.now ≤ max_types }
    ensures { result ≡ table (firsts_from 0 types.now) }
{
    let mut first = [0usize; 16];
    let mut x: usize = 0;
    for (t, n) in types.iter().enumerate() {
        first[t] = x;
        x += usize::from(*n);
    }
    first
}
