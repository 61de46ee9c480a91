// Calls of identity, check, apply, compose and inverse.
use crate::arguments;
use crate::numbers::Numbers;
use crate::reply::{Output, Reply};
use rows::answer::Answer;
use rows::apply::apply;
use rows::compose::compose;
use rows::identity::identity;

// A call that writes a map to an output of this length, and its answer with the output after it.
fn replay<F: FnOnce(&mut [u8]) -> Answer>(length: &[u8], call: F) -> Option<Reply>
    requires { F.IsAlwaysCallable call }
{
    let mut bytes = [0xa5; 256];
    let length = arguments::length(length)?;
    let answer = call(bytes.get_mut(..length)?);
    Some(Reply::Map(Numbers::from(answer), Output { bytes, length }))
}

// A call of identity.
pub(crate) fn replay_identity(model: &[u8], length: &[u8]) -> Option<Reply> {
    let mut buffer = [0; 4096];
    let model = arguments::bytes(model, &mut buffer)?;
    replay(length, |out| identity(model, out))
}

// A call of check or inverse: both take two files, a list of bytes and an output.
pub(crate) fn replay_two<F: Fn(&[u8], &[u8], &[u8], &mut [u8]) -> Answer>(
    call: F,
    source: &[u8],
    target: &[u8],
    list: &[u8],
    length: &[u8],
) -> Option<Reply>
    requires { F.IsAlwaysCallable call }
{
    let mut source_buffer = [0; 4096];
    let mut target_buffer = [0; 4096];
    let mut list_buffer = [0; 4096];
    let source = arguments::bytes(source, &mut source_buffer)?;
    let target = arguments::bytes(target, &mut target_buffer)?;
    let list = arguments::bytes(list, &mut list_buffer)?;
    replay(length, |out| call(source, target, list, out))
}

// A call of apply.
pub(crate) fn replay_apply(
    source: &[u8],
    target: &[u8],
    map: &[u8],
    element: &[u8],
) -> Option<Reply> {
    let mut source_buffer = [0; 4096];
    let mut target_buffer = [0; 4096];
    let mut map_buffer = [0; 4096];
    let source = arguments::bytes(source, &mut source_buffer)?;
    let target = arguments::bytes(target, &mut target_buffer)?;
    let map = arguments::bytes(map, &mut map_buffer)?;
    let element = arguments::element(element)?;
    let answer = apply(source, target, map, element);
    Some(Reply::Number(Numbers::from(answer)))
}

// A call of compose.
pub(crate) fn replay_compose(
    source: &[u8],
    middle: &[u8],
    target: &[u8],
    first: &[u8],
    second: &[u8],
    length: &[u8],
) -> Option<Reply> {
    let mut source_buffer = [0; 4096];
    let mut middle_buffer = [0; 4096];
    let mut target_buffer = [0; 4096];
    let mut first_buffer = [0; 4096];
    let mut second_buffer = [0; 4096];
    let source = arguments::bytes(source, &mut source_buffer)?;
    let middle = arguments::bytes(middle, &mut middle_buffer)?;
    let target = arguments::bytes(target, &mut target_buffer)?;
    let first = arguments::bytes(first, &mut first_buffer)?;
    let second = arguments::bytes(second, &mut second_buffer)?;
    replay(length, |out| {
        compose(source, middle, target, first, second, out)
    })
}
