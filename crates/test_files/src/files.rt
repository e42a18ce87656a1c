//! Files from lines.

use std::alloc::{AllocError, Global};

/// The file that a line stands for.
pub fn file_of(alloc: Global, line: &str) -> Result<String, AllocError> {
    match line.split_once('{') {
        Some(("", _)) | None => String::from_str(alloc, line),
        Some((first, _)) => match first.split_once(',') {
            Some((count, _)) => many(alloc, number(count), ",", rest(line, ',')),
            None => match first.split_once(' ') {
                Some((count, _)) => many(alloc, number(count), "", rest(line, ' ')),
                None => String::from_str(alloc, line),
            },
        },
    }
}

fn rest(line: &str, mark: char) -> &str {
    match line.split_once(mark) {
        Some((_, rest)) => rest,
        None => "",
    }
}

fn number(text: &str) -> u32 {
    text.parse().unwrap_or(0)
}

/// A head, pieces and a tail.
fn many(alloc: Global, count: u32, between: &str, parts: &str) -> Result<String, AllocError> {
    let (head, more) = parts.split_once('|').unwrap_or((parts, ""));
    let (piece, tail) = more.split_once('|').unwrap_or((more, ""));
    let mut text = String::from_str(alloc, head)?;
    for number in 0..count {
        if number > 0 {
            text.push_str(between)?;
        }
        push_piece(alloc, &mut text, piece, number)?;
    }
    text.push_str(tail)?;
    Ok(text)
}

/// A piece, with its number from 1 in the place of each `#`.
fn push_piece(
    alloc: Global,
    text: &mut String,
    piece: &str,
    number: u32,
) -> Result<(), AllocError> {
    let number = u64::from(number) + 1;
    for char in piece.chars() {
        if char == '#' {
            text.push_str(format!(in alloc; "{number}")?.as_str())?;
        } else {
            text.push(char)?;
        }
    }
    Ok(())
}
