// The line that is printed, put together from its start: each function writes a text behind what stands, and answers the place just past it.
ghost use Rattle.std.specs.Prelude.{◌≤◌, ◌+◌, ◌*◌, ◌≡◌, ◌∷◌, map as mapped, length};
ghost use Rattle.job.specs.Line.{decimal, entry, spaced};
ghost use Rattle.job.specs.Writing.{Added};

// Bytes.
// Written by hand: the line is made in a buffer of fixed size, with no heap.
pub(crate) fn put(line: &mut [u8], at: usize, bytes: &[u8]) -> usize
    requires { at + length bytes.now ≤ length line.old }
    ensures { Added line.old at bytes.now result line.new }
{
    let end = at + bytes.len();
    line[at..end].copy_from_slice(bytes);
    end
}

// A number, in decimal.
// Written by hand: the line is made in a buffer of fixed size, with no heap.
#[tactic(auto, using(crate::proofs::Laws::Digits::decimal_digits))]
pub(crate) fn put_number(line: &mut [u8], at: usize, n: u64) -> usize
    requires { at + 20 ≤ length line.old }
    ensures added { Added line.old at (decimal n) result line.new }
    ensures short { result ≤ at + 20 }
{
    let mut digits = [0; 20];
    let count = io::decimal(n, &mut digits);
    put(line, at, &digits[..count])
}

// A space, and a number.
fn put_value(line: &mut [u8], at: usize, n: u64) -> usize
    requires { at + 21 ≤ length line.old }
    ensures added { Added line.old at (32 ∷ decimal n) result line.new }
    ensures short { result ≤ at + 21 }
{
    let next = put(line, at, b" ");
    put_number(line, next, n)
}

// Numbers, a space before each.
#[tactic(auto, using(crate::proofs::Laws::Line::mapping_all))]
pub(crate) fn put_values(line: &mut [u8], at: usize, values: &[u64]) -> usize
    requires { at + 21 * length values.now ≤ length line.old }
    ensures added { Added line.old at (spaced (mapped decimal values.now)) result line.new }
    ensures short { result ≤ at + 21 * length values.now }
{
    let mut end = at;
    for n in values {
        end = put_value(line, end, *n);
    }
    end
}

// A space, and an entry of a map: `-` for 255.
// No Option: 255 stands for none in the bytes of a map, which C lends.
#[tactic(auto, using(crate::proofs::Laws::Line::entry_none, crate::proofs::Laws::Line::entry_some))]
fn put_entry(line: &mut [u8], at: usize, e: u8) -> usize
    requires { at + 21 ≤ length line.old }
    ensures added { Added line.old at (32 ∷ entry e) result line.new }
    ensures short { result ≤ at + 21 }
{
    if e == 255 {
        put(line, at, b" -")
    } else {
        put_value(line, at, u64::from(e))
    }
}

// The entries of a map, a space before each.
#[tactic(auto, using(crate::proofs::Laws::Line::mapping_all))]
pub(crate) fn put_map(line: &mut [u8], at: usize, map: &[u8]) -> usize
    requires { at + 21 * length map.now ≤ length line.old }
    ensures added { Added line.old at (spaced (mapped entry map.now)) result line.new }
    ensures short { result ≤ at + 21 * length map.now }
{
    let mut end = at;
    for e in map {
        end = put_entry(line, end, *e);
    }
    end
}
