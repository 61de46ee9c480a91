// Two files whose models have one signature.
ghost use Rattle.std.specs.Prelude.{◌≡◌, true};
ghost use Rattle.stored.specs.Signature.{signature, same_signature};
ghost use Rattle.stored.specs.File.{held};

use crate::file::File;

// The left file and the right one of a call that compares them.
#[derive(Clone, Copy)]
pub struct Matched<'l, 'r> {
    pub left: File<'l>,
    pub right: File<'r>,
    ghost one_signature: { same_signature (signature (held left)) (signature (held right)) ≡ true },
}
