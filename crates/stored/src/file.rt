// A file that holds a model, with where things stand in it.
ghost use Rattle.stored.specs.Reading.{Reads};

use crate::layout::Layout;

// The bytes of a file that holds a model, and its layout.
#[derive(Clone, Copy)]
pub struct File<'a> {
    pub bytes: &'a [u8],
    pub layout: Layout,
    ghost reads: { Reads bytes.now layout },
}
