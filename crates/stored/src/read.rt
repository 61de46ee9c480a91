// Reading a whole file: Types, Roots, any Relations, End, nothing after.
ghost use Rattle.std.specs.Prelude.{◌≡◌, true, ◌≤◌, ◌+◌, length, MatchResult};
ghost use Rattle.lists.specs.Part.{part};
ghost use Rattle.stored.specs.Limits.{max_types, max_relations, max_cells};
ghost use Rattle.stored.specs.Types.{types_hold};
ghost use Rattle.stored.specs.Parse.{end_at, item_at, rest_at, model_with, parse_roots, parse, model, fault};
ghost use Rattle.stored.specs.File.{held};
ghost use Rattle.stored.specs.Reading.{Begun, begun_with, last_reading, reading_of};

use crate::field::Cursor;
use crate::file::File;
use crate::layout::Layout;
use crate::refusal::Fault;
use crate::relation::relation;
use crate::roots::roots_hold;
use crate::types::{first_elements, total, types_hold};

// What stands after Roots: End, or a Relation that keeps its rules, its value `len` bytes from `start`, with its arity and row count and the
// cursor past it.
#[derive(Clone, Copy)]
pub enum Item {
    End,
    Relation {
        start: usize,
        len: usize,
        arity: usize,
        count: usize,
        next: Cursor,
    },
}

// End, which has no value and nothing after it: its field stands at `at`, its value at `start`.
#[tactic(auto, unfolding(crate::specs::Parse::end_at))]
fn end(s: &[u8], at: usize, start: usize, len: usize) -> Result<Item, Fault>
    ensures { result ≡ end_at s.now at start len }
{
    if len != 0 {
        return Err(Fault { offset: at });
    }
    if start != s.len() {
        return Err(Fault { offset: start });
    }
    Ok(Item::End)
}

// What stands at a cursor after Roots.
#[tactic(auto, using(crate::proofs::Laws::Parse::items))]
fn next_item(types: &[u8], room: usize, s: &[u8], c: Cursor) -> Result<Item, Fault>
    requires { length types.now ≤ max_types }
    ensures { result ≡ item_at types.now room s.now c.at }
{
    let at = c.at;
    let field = c.field(s)?;
    if field.tag == 0 {
        return end(s, at, field.start, field.len);
    }
    if field.tag != 3 {
        return Err(Fault { offset: at });
    }
    let past = field.start + field.len;
    match relation(types, room, &s[field.start..past]) {
        Some(shape) => Ok(Item::Relation {
            start: field.start,
            len: field.len,
            arity: shape.arity,
            count: shape.count,
            next: field.next,
        }),
        None => Err(Fault { offset: at }),
    }
}

// Where no Relation is due any more: a layout that is complete if End stands at the cursor, or a fault.
#[tactic(auto, unfolding(crate::specs::Reading::last_reading))]
fn last(types: &[u8], room: usize, s: &[u8], c: Cursor, l: Layout) -> Result<Layout, Fault>
    requires { length types.now ≤ max_types }
    ensures { result ≡ last_reading types.now room s.now c.at l }
{
    match next_item(types, room, s, c)? {
        Item::End => Ok(l),
        Item::Relation { .. } => Err(Fault { offset: c.at }),
    }
}

// Relations and End from a cursor on, after Types and Roots that stand where a layout without relations says.
fn relations(types: &[u8], s: &[u8], c: Cursor, begun: Layout) -> Result<Layout, Fault>
    requires { (length types.now ≤ max_types) × Begun types.now c.at begun }
    ensures { result ≡ reading_of (model_with types.now (part s.now begun.roots begun.size) (rest_at max_relations types.now max_cells s.now c.at)) }
{
    let mut cursor = c;
    let mut l = begun;
    let mut room: usize = 2048;
    for _k in 0..16usize {
        match next_item(types, room, s, cursor)? {
            Item::End => return Ok(l),
            Item::Relation {
                start,
                arity,
                count,
                next,
                ..
            } => {
                l = l.with_relation(arity, count, start + 3 + arity);
                room -= count * arity;
                cursor = next;
            }
        }
    }
    last(types, room, s, cursor, l)
}

// Roots and what follows, from a cursor just after Types.
#[tactic(auto, using(crate::proofs::Laws::WellFormed::roots_found), unfolding(crate::specs::Parse::parse_roots, crate::specs::Reading::reading_of, crate::specs::Reading::begun_with))]
fn read_roots(types: &[u8], s: &[u8], c: Cursor) -> Result<Layout, Fault>
    requires { (types_hold types.now ≡ true) × (c.at ≡ 3 + length types.now) }
    ensures { result ≡ reading_of (parse_roots types.now s.now c.at) }
{
    let field = c.field(s)?;
    if field.tag != 2 {
        return Err(Fault { offset: c.at });
    }
    let past = field.start + field.len;
    if !roots_hold(types, &s[field.start..past]) {
        return Err(Fault { offset: c.at });
    }
    let begun = begin(types, field.start);
    relations(types, s, field.next, begun)
}

// The layout of Types and of Roots, whose value starts at `roots`, without relations.
#[tactic(auto, unfolding(crate::specs::Reading::begun_with, crate::specs::Layout::no_layout))]
fn begin(types: &[u8], roots: usize) -> Layout
    requires { length types.now ≤ max_types }
    ensures { result ≡ begun_with types.now roots }
{
    let none = Layout::none();
    let size = total(types);
    let first = first_elements(types);
    let arity = none.arity;
    let count = none.count;
    let rows = none.rows;
    Layout {
        types: types.len(),
        first,
        size,
        roots,
        relations: 0,
        arity,
        count,
        rows,
    }
}

// What a file holds: a model, with where things stand, or the fault of its first broken field (`Model` of model.rs is built by calls; this
// is the reader that the port adds).
#[tactic(auto, using(crate::proofs::Laws::Field::fields), unfolding(crate::specs::Parse::parse, crate::specs::Reading::reading_of))]
pub fn read(s: &[u8]) -> Result<Layout, Fault>
    ensures { result ≡ reading_of (parse s.now) }
{
    let field = Cursor::new().field(s)?;
    if field.tag != 1 {
        return Err(Fault { offset: 0 });
    }
    let past = field.start + field.len;
    let types = &s[field.start..past];
    if !types_hold(types) {
        return Err(Fault { offset: 0 });
    }
    read_roots(types, s, field.next)
}

impl<'a> File<'a> {
    // The file that some bytes are, or the fault of its first broken field.
    pub fn read(bytes: &'a [u8]) -> Result<File<'a>, Fault>
        ensures { MatchResult result (λ file. parse bytes.now ≡ model (held file)) (λ f. parse bytes.now ≡ fault f) }
    {
        let layout = read(bytes)?;
        Ok(File { bytes, layout })
    }
}
