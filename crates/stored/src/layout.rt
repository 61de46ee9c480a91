// Where things stand in a file that holds a model.
ghost use Rattle.std.specs.Prelude.{◌≡◌, ◌<◌};
ghost use Rattle.stored.specs.Limits.{max_relations};
ghost use Rattle.stored.specs.Layout.{no_layout, with_relation};

// The number of types, the first element of each, the number of elements, where the roots start; the number of relations, and of each its
// arity, its row count and where its rows start. Tables hold 0 past their last entry.
#[derive(Clone, Copy)]
pub struct Layout {
    pub types: usize,
    pub first: [usize; 16],
    pub size: usize,
    pub roots: usize,
    pub relations: usize,
    pub arity: [usize; 16],
    pub count: [usize; 16],
    pub rows: [usize; 16],
}

impl Layout {
    // Of no model.
    #[tactic(auto, unfolding(crate::specs::Layout::no_layout, crate::specs::Layout::table, lists::specs::Part::over))]
    pub fn none() -> Self
        ensures { result ≡ no_layout }
    {
        Layout {
            types: 0,
            first: [0usize; 16],
            size: 0,
            roots: 0,
            relations: 0,
            arity: [0usize; 16],
            count: [0usize; 16],
            rows: [0usize; 16],
        }
    }

    // With one relation more.
    #[tactic(auto, unfolding(crate::specs::Layout::with_relation))]
    pub(crate) fn with_relation(self, arity: usize, count: usize, rows: usize) -> Self
        requires { self.relations < max_relations }
        ensures { result ≡ with_relation self arity count rows }
    {
        let k = self.relations;
        let mut l = self;
        l.arity[k] = arity;
        l.count[k] = count;
        l.rows[k] = rows;
        l.relations = k + 1;
        l
    }
}
