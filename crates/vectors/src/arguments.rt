// The arguments of a call: words of its line, each read as what it stands for, or refused.
ghost use Rattle.std.specs.Prelude.{IfSome, ◌<◌};

use stored::model::Element;

// The value of a digit in hex, letters in lower case.
fn digit(c: u8) -> Option<u8>
    ensures { IfSome result (λ value. value < 16) }
{
    match c {
        b'0'..=b'9' => Some(c - b'0'),
        b'a'..=b'f' => Some(c - b'a' + 10),
        _ => None,
    }
}

// Fills bytes from a word that has two digits for each of them.
fn fill(bytes: &mut [u8], word: &[u8]) -> Option<()> {
    let (pairs, rest) = word.as_chunks::<2>();
    if pairs.len() != bytes.len() || !rest.is_empty() {
        return None;
    }
    for (byte, [high, low]) in bytes.iter_mut().zip(pairs) {
        *byte = digit(*high)? << 4 | digit(*low)?;
    }
    Some(())
}

// Bytes, two digits for each, or `_` for none. There are no more than a buffer takes: a good file has at most 2,361.
pub(crate) fn bytes<'a>(word: &[u8], buffer: &'a mut [u8; 4096]) -> Option<&'a [u8]> {
    if word == b"_".as_slice() {
        return Some(&[]);
    }
    if word.is_empty() {
        return None;
    }
    let bytes = buffer.get_mut(..word.len() / 2)?;
    fill(bytes, word)?;
    Some(bytes)
}

// An element: one byte.
pub(crate) fn element(word: &[u8]) -> Option<Element> {
    let mut bytes = [0];
    fill(&mut bytes, word)?;
    Some(Element(u16::from(bytes[0])))
}

// A budget: sixteen digits.
pub(crate) fn budget(word: &[u8]) -> Option<u64> {
    let mut bytes = [0; 8];
    fill(&mut bytes, word)?;
    Some(u64::from_be_bytes(bytes))
}

// A length, in decimal.
pub(crate) fn length(word: &[u8]) -> Option<usize> {
    if word.is_empty() {
        return None;
    }
    let mut length: usize = 0;
    for c in word {
        let digit = char::from(*c).to_digit(10)?;
        length = length.checked_mul(10)?.checked_add(digit as usize)?;
    }
    Some(length)
}
