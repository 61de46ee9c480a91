// A reader of fields: it holds the bytes of a job and its place in them, and asks the cursor of `stored`.
ghost use Rattle.std.specs.Prelude.{◌≡◌, ◌+◌, ◌≤◌, length, None, Some, MatchOption};
ghost use Rattle.job.specs.Line.{value_in};
ghost use Rattle.job.specs.Reader.{due_at};

use stored::field::Cursor;

// Where the value of a field stands: `len` bytes from `start`.
#[derive(Clone, Copy)]
pub struct Value {
    pub start: usize,
    pub len: usize,
}

impl Value {
    // The bytes of the value, in the job that it stands in.
    pub(crate) fn of(self, job: &[u8]) -> &[u8]
        requires { self.start + self.len ≤ length job.now }
        ensures { result.now ≡ value_in job.now self }
    {
        &job[self.start..self.start + self.len]
    }
}

// The bytes, and the place in them.
#[derive(Drop)]
pub struct Reader<'a> {
    pub src: &'a [u8],
    pub at: usize,
}

impl<'a> Reader<'a> {
    // A reader at the start of some bytes.
    pub(crate) fn new(src: &'a [u8]) -> Reader<'a>
        ensures { (result.src ≡ src.entry) × (result.at ≡ 0) }
    {
        Reader { src, at: 0 }
    }

    // The value of the field at the reader's place, if it has the tag that is due: then the reader is past it, and else where it was.
    #[tactic(auto, unfolding(crate::specs::Reader::due_at))]
    pub(crate) fn due(&mut self, tag: u8) -> Option<Value>
        ensures src { self.new.src ≡ self.old.src }
        ensures field { MatchOption result
            ((due_at self.old.src.now tag self.old.at ≡ None) × (self.new.at ≡ self.old.at))
            (λ value. due_at self.old.src.now tag self.old.at ≡ Some (record { value = value; past = self.new.at })) }
    {
        let field = Cursor { at: self.at }.field(self.src).ok()?;
        if field.tag != tag {
            return None;
        }
        self.at = field.next.at;
        Some(Value {
            start: field.start,
            len: field.len,
        })
    }
}
