// A field of a file: a one-byte tag, a two-byte length, high byte first, and a value.
ghost use Rattle.std.specs.Prelude.{◌≡◌, ◌+◌, ◌*◌};
ghost use Rattle.stored.specs.Field.{field_at};

use crate::refusal::Fault;

// A place in a file.
#[derive(Clone, Copy, PartialEq, Eq)]
pub struct Cursor {
    pub at: usize,
}

// A field, its value `len` bytes from `start`, and the cursor moved past it.
#[derive(Clone, Copy)]
pub struct Field {
    pub tag: u8,
    pub start: usize,
    pub len: usize,
    pub next: Cursor,
}

// A two-byte number, high byte first.
pub(crate) fn word(hi: u8, lo: u8) -> usize
    ensures { result ≡ 256 * hi + lo }
{
    usize::from(u16::from_be_bytes([hi, lo]))
}

impl Cursor {
    // The start of a file.
    pub fn new() -> Self
        ensures { result.at ≡ 0 }
    {
        Cursor { at: 0 }
    }

    // The field at the cursor, or the fault of what stands there.
    #[tactic(auto, unfolding(crate::specs::Field::field_at))]
    pub fn field(self, s: &[u8]) -> Result<Field, Fault>
        ensures { result ≡ field_at s.now self.at }
    {
        let at = self.at;
        if s.len() < 3 {
            return Err(Fault { offset: at });
        }
        if s.len() - 3 < at {
            return Err(Fault { offset: at });
        }
        let len = word(s[at + 1], s[at + 2]);
        let start = at + 3;
        if s.len() - start < len {
            return Err(Fault { offset: at });
        }
        Ok(Field {
            tag: s[at],
            start,
            len,
            next: Cursor { at: start + len },
        })
    }
}
