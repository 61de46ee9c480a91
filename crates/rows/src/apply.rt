// Apply: where an element goes.
ghost use Rattle.std.specs.Prelude.{◌≡◌};
ghost use Rattle.stored.specs.File.{held};
ghost use Rattle.rows.specs.Answer.{applied_numbers};
ghost use Rattle.rows.specs.Apply.{apply_models, apply_files};

use crate::files::read_two;
use crate::maps::is_map;
use stored::file::File;
use stored::model::Element;
use stored::refusal::Refusal;

// Apply with two files that hold models.
fn apply_models(
    source: &File<'_>,
    target: &File<'_>,
    map: &[u8],
    element: Element,
) -> Result<Element, Refusal>
    ensures { result ≡ apply_models map.now element.0 (held source.now) (held target.now) }
{
    if !source.same_signature(target) {
        return Err(Refusal::SignaturesDiffer);
    }
    if !is_map(source, target, map) {
        return Err(Refusal::NotAMap { map: 1 });
    }
    if source.size() <= element.0 as usize {
        return Err(Refusal::UnknownElement { place: 0, side: 1 });
    }
    let root = source.root_of(element).0;
    let at = root as usize;
    Ok(Element(map[at] as u16))
}

// The image's representative of an element, aliases of the source taken to their representatives (`ModelHom::apply` of model_hom.rs).
pub fn apply(source: &[u8], target: &[u8], map: &[u8], element: Element) -> Result<Element, Refusal>
    ensures { applied_numbers result ≡ applied_numbers (apply_files source.now target.now map.now element.0) }
{
    let (source, target) = read_two(source, target)?;
    apply_models(&source, &target, map, element)
}
