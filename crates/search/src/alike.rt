// Whether two models are alike: as many classes on both sides, as many rows in each relation.
ghost use Rattle.std.specs.Prelude.{◌≡◌, true, ◌≤◌};
ghost use Rattle.lists.specs.Every.{all};
ghost use Rattle.lists.specs.Numbers.{up_from};
ghost use Rattle.stored.specs.Limits.{max_relations};
ghost use Rattle.stored.specs.File.{held};
ghost use Rattle.search.specs.Find.{same_count_in};
ghost use Rattle.search.specs.Find as find;

use rounds::classes::class_count;
use stored::layout::Layout;
use stored::matched::Matched;

// Whether each relation of the left has as many rows on the right.
fn same_row_counts(in_left: &Layout, in_right: &Layout) -> bool
    requires { in_left.now.relations ≤ max_relations }
    ensures { result ≡ all (same_count_in in_left.now in_right.now) (up_from 0 in_left.now.relations) }
{
    let relations = in_left.relations;
    in_left.count[..relations] == in_right.count[..relations]
}

// Whether two models of one signature are alike.
#[tactic(auto, using(stored::proofs::Laws::Reading::few_relations))]
pub(crate) fn alike(both: &Matched<'_, '_>) -> bool
    ensures { result ≡ find.alike (held both.now.left) (held both.now.right) }
{
    let classes = class_count(&both.left);
    let other_classes = class_count(&both.right);
    if classes != other_classes {
        return false;
    }
    same_row_counts(&both.left.layout, &both.right.layout)
}
