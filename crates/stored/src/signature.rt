// Whether two files have the same signature: the number of types and the columns of each relation in order.
ghost use Rattle.std.specs.Prelude.{◌≡◌};
ghost use Rattle.lists.specs.Order.{same_row};
ghost use Rattle.stored.specs.Signature.{signature, same_signature};
ghost use Rattle.stored.specs.File.{held};

use crate::file::File;

// Whether two rows are equal.
#[tactic(auto, using(crate::proofs::Laws::Chains::pointwise_pairwise), unfolding(lists::specs::Order::same_row))]
pub fn same_row(a: &[u8], b: &[u8]) -> bool
    ensures { result ≡ same_row a.now b.now }
{
    a == b
}

impl<'a> File<'a> {
    // Whether the models that two files hold have one signature (`check_signatures` of model_hom.rs).
    pub fn same_signature(&self, other: &File<'_>) -> bool
        ensures { result ≡ same_signature (signature (held self.now)) (signature (held other.now)) }
    {
        if self.types().len() != other.types().len() {
            return false;
        }
        if self.relations() != other.relations() {
            return false;
        }
        for k in 0..self.relations() {
            if self.columns(k) != other.columns(k) {
                return false;
            }
        }
        true
    }
}
