// The value of Roots: the representative of each element.
ghost use Rattle.std.specs.Prelude.{◌≡◌, ◌≤◌, ◌<◌, true, length};
ghost use Rattle.stored.specs.Limits.{max_types, max_elements};
ghost use Rattle.stored.specs.Types.{types_hold};
ghost use Rattle.stored.specs.Roots.{root_holds, roots_hold};

use crate::model::Element;
use crate::types::{total, type_in};

// Whether the representative of one element keeps the rules.
#[tactic(auto, unfolding(crate::specs::Roots::root_holds))]
fn root_holds(types: &[u8], roots: &[u8], x: usize) -> bool
    requires { (length types.now ≤ max_types) × (length roots.now ≤ max_elements) × (x < length roots.now) }
    ensures { result ≡ root_holds types.now roots.now x }
{
    let root = usize::from(roots[x]);
    if roots.len() <= root {
        return false;
    }
    let its_type = type_in(types, Element(root as u16));
    let own_type = type_in(types, Element(x as u16));
    its_type == own_type && usize::from(roots[root]) == root
}

// Whether the value keeps the rules. A call of its own: within its caller the loop has too few registers.
#[inline(never)]
pub(crate) fn roots_hold(types: &[u8], roots: &[u8]) -> bool
    requires { types_hold types.now ≡ true }
    ensures { result ≡ roots_hold types.now roots.now }
{
    let n = total(types);
    if roots.len() != n {
        return false;
    }
    (0..roots.len()).all(|x| root_holds(types, roots, x))
}
