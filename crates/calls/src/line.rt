// A line of the input, taken as a call.
use std::alloc::{AllocError, Global};
use std::str::from_utf8;

// A call to check a sheet, with a findings list of `room` entries.
#[derive(Drop)]
pub struct Request {
    pub sheet: Vec<u8>,
    pub room: usize,
}

// The number that is written with one to five decimal digits.
fn number_of(text: &str) -> Option<usize> {
    if text.len() > 5 || !text.bytes().all(|b| b.is_ascii_digit()) {
        return None;
    }
    text.parse().ok()
}

// The sheet, still in hexadecimal, and the length of the findings list.
fn operands_of(line: &[u8]) -> Option<(&str, usize)> {
    let text = from_utf8(line).ok()?;
    let (sheet, room) = text.strip_prefix("check ")?.split_once(' ')?;
    Some((sheet, number_of(room)?))
}

// The byte that two hexadecimal digits write.
fn byte_of(pair: &[u8]) -> Option<u8> {
    let [high, low] = pair else {
        return None;
    };
    let high = char::from(*high).to_digit(16)?;
    let low = char::from(*low).to_digit(16)?;
    u8::try_from(16 * high + low).ok()
}

// The bytes that are written in hexadecimal, or none where the text is not of this form. `-` stands for no bytes. Room is taken
// before the digits are looked at, and none of it is written past the first that is none.
fn bytes_of(heap: Global, text: &str) -> Result<Option<Vec<u8>>, AllocError> {
    let digits = if text == "-" { "" } else { text };
    if text.is_empty() || digits.len() % 2 != 0 {
        return Ok(None);
    }
    let mut bytes = Vec::with_capacity(heap, digits.len() / 2)?;
    for pair in digits.as_bytes().chunks(2) {
        // Not `?`: the function gives a Result, and what stands for no bytes is its Ok(None).
        let Some(byte) = byte_of(pair) else {
            return Ok(None);
        };
        bytes.push(byte)?;
    }
    Ok(Some(bytes))
}

// The call that a line writes, or none where it writes no call.
pub fn request_of(heap: Global, line: &[u8]) -> Result<Option<Request>, AllocError> {
    // Not `?`, as above.
    let Some((text, room)) = operands_of(line) else {
        return Ok(None);
    };
    let sheet = bytes_of(heap, text)?;
    Ok(sheet.map(|sheet| Request { sheet, room }))
}
