// Bytes as they are spelled in a line.
use crate::Misread;
use lti_outside::Bytes;
use std::alloc::Global;

/// The bytes that a text spells: `\r`, `\n` and `\s` are CR, LF and a blank, `\x` has two hexadecimal digits behind it, and
/// every other character is itself.
pub fn spelled_bytes(alloc: Global, text: &str) -> Result<Bytes, Misread> {
    let mut bytes = Bytes::new(alloc);
    let mut pieces = text.split('\\');
    bytes.push(pieces.next().unwrap_or("").as_bytes())?;
    for piece in pieces {
        push_escape(&mut bytes, piece)?;
    }
    Ok(bytes)
}

// Appends what the letter behind a backslash stands for, and the rest of the piece.
fn push_escape(bytes: &mut Bytes, piece: &str) -> Result<(), Misread> {
    let (letter, mut rest) = piece.split_at_checked(1).ok_or(Misread::NoCase)?;
    match letter {
        "r" => bytes.push(b"\r")?,
        "n" => bytes.push(b"\n")?,
        "s" => bytes.push(b" ")?,
        "x" => {
            let (digits, behind) = rest.split_at_checked(2).ok_or(Misread::NoCase)?;
            let Ok(byte) = u8::from_str_radix(digits, 16) else {
                return Err(Misread::NoCase);
            };
            bytes.push(&[byte])?;
            rest = behind;
        }
        _ => return Err(Misread::NoCase),
    }
    bytes.push(rest.as_bytes())?;
    Ok(())
}

/// The text that spells these bytes, on one line. Blanks stand as they are.
pub fn spelling_of(alloc: Global, bytes: &[u8]) -> Result<String, Misread> {
    let mut text = String::new(alloc);
    for byte in bytes {
        match *byte {
            b'\r' => text.push_str("\\r")?,
            b'\n' => text.push_str("\\n")?,
            byte if byte.is_ascii_graphic() || byte == b' ' => text.push(char::from(byte))?,
            byte => text.push_str(format!(in alloc; "\\x{byte:02x}")?.as_str())?,
        }
    }
    Ok(text)
}
