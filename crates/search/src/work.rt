// The lent work entries.
ghost use Rattle.std.specs.Prelude.{◌≡◌, ◌≤◌, length};
ghost use Rattle.search.specs.Answer.{work_room, cleared};

// How many entries a call may use.
pub(crate) const ROOM: usize = 32768;

// Sets the entries that a call may use to zero.
pub(crate) fn clear(work: &mut [u16])
    requires { work_room ≤ length work.old }
    ensures { work.new ≡ cleared work_room work.old }
{
    work[..ROOM].fill(0);
}
