//! Bytes in one line, in which `\r`, `\n` and `\\` stand for CR, LF and a backslash.

use std::alloc::{AllocError, Global};

/// Adds the bytes of a line. `\s` is a space, `\#` the number, and `\?` the byte 255, which no text
/// has.
pub fn add_unescaped(
    alloc: Global,
    bytes: &mut Vec<u8>,
    line: &str,
    number: usize,
) -> Result<(), AllocError> {
    let mut is_marked = false;
    for byte in line.bytes() {
        if is_marked {
            add_marked(alloc, bytes, byte, number)?;
            is_marked = false;
        } else if byte == b'\\' {
            is_marked = true;
        } else {
            bytes.push(byte)?;
        }
    }
    Ok(())
}

/// Adds what stands behind a backslash.
fn add_marked(
    alloc: Global,
    bytes: &mut Vec<u8>,
    byte: u8,
    number: usize,
) -> Result<(), AllocError> {
    match byte {
        b'r' => bytes.push(b'\r')?,
        b'n' => bytes.push(b'\n')?,
        b's' => bytes.push(b' ')?,
        b'?' => bytes.push(255)?,
        b'#' => bytes.extend_from_slice(format!(in alloc; "{number}")?.as_bytes())?,
        _ => bytes.push(byte)?,
    }
    Ok(())
}

/// A text in one line.
pub fn escape(alloc: Global, text: &str) -> Result<String, AllocError> {
    let mut line = String::new(alloc);
    for char in text.chars() {
        match char {
            '\r' => line.push_str("\\r")?,
            '\n' => line.push_str("\\n")?,
            '\\' => line.push_str("\\\\")?,
            _ => line.push(char)?,
        }
    }
    Ok(line)
}
