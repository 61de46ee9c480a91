// What the model in a file holds: each part is said on a line of its own.
ghost use Rattle.std.specs.Prelude.{◌≡◌, ◌<◌, length};
ghost use Rattle.stored.specs.File.{held};
ghost use Rattle.show.specs.Representatives.{representatives_from};

use crate::printer::Printer;
use std::fmt;
use std::fmt::Write;
use stored::file::File;

// Bytes as numbers, a space before each.
#[derive(Drop)]
struct Spaced<'a>(&'a [u8]);

impl fmt::Display for Spaced<'_> {
    fn fmt<W: fmt::Write>(&self, f: &mut fmt::Formatter<W>) -> fmt::Result {
        for byte in self.0 {
            write!(f, " {byte}")?;
        }
        Ok(())
    }
}

// How many elements are their own representative.
#[tactic(auto, using(crate::proofs::Representatives::own, crate::proofs::Representatives::alias, crate::proofs::Representatives::end))]
fn representatives(roots: &[u8]) -> usize
    ensures { result ≡ representatives_from 0 roots.now }
{
    let mut n: usize = 0;
    for (x, root) in roots.iter().enumerate() {
        if usize::from(*root) == x {
            n += 1;
        }
    }
    n
}

// How many types there are, and how many elements each has.
fn show_types(out: &mut Printer, file: &File<'_>) -> fmt::Result {
    let types = file.types();
    writeln!(out, "types {}:{}", types.len(), Spaced(types))
}

// How many elements there are, and how many of them are their own representative.
fn show_elements(out: &mut Printer, file: &File<'_>) -> fmt::Result {
    let roots = file.roots();
    writeln!(
        out,
        "elements {}\nrepresentatives {}",
        roots.len(),
        representatives(roots)
    )
}

// A relation's number, the types of its columns, and how many rows it has.
fn show_relation(out: &mut Printer, file: &File<'_>, k: usize) -> fmt::Result
    requires { k < length (held file.now).relations }
{
    writeln!(
        out,
        "relation {k}: columns{}, rows {}",
        Spaced(file.columns(k)),
        file.rows(k).count
    )
}

// How many relations there are, and each of them.
fn show_relations(out: &mut Printer, file: &File<'_>) -> fmt::Result {
    writeln!(out, "relations {}", file.relations())?;
    for k in 0..file.relations() {
        show_relation(out, file, k)?;
    }
    Ok(())
}

// The whole model, and whether it is canonical.
pub(crate) fn show_model(out: &mut Printer, file: &File<'_>) -> fmt::Result {
    if file.is_canonical() {
        writeln!(out, "model, canonical")?;
    } else {
        writeln!(out, "model, not canonical")?;
    }
    show_types(out, file)?;
    show_elements(out, file)?;
    show_relations(out, file)
}
