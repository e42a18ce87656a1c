//! The parts of a path, which stand between its slashes. They are counted from 0, and the first one
//! is empty.
ghost use Rattle.std.specs.Prelude.{◌≡◌, ℕ, ◌<◌, ◌+◌, ◌==◌, [], length, slice_index, get_or, true};
ghost use Rattle.std.specs.Prelude.{IsTrue, ◌↔◌};
ghost use Rattle.std.specs.List.{after_first, before_first, list_all};
ghost use Rattle.std.specs.Char.{is_digit};
ghost use Rattle.app_wire.specs.Routing.{HasWholeEscapes, IsCallerName, is_name_byte, path_parts};
ghost use Rattle.app_wire.specs.Routing as part;
ghost use Rattle.app_wire.specs.RouteTable.{RoutePartReads};
ghost use Rattle.app_wire.specs.RouteTable as kind;

use crate::body::number_of;
use crate::route::RouteEnd;
use fx_types::words::Words;
use percent_encoding::{DecodeError, percent_decode_str};
use std::alloc::Global;

/// The most bytes of a caller's name.
const MOST_NAME: usize = 32;

/// The most digits of a number in a path.
const MOST_DIGITS: usize = 10;

fn before_slash(path: &str) -> &str
    ensures { result.now ≡ before_first (λ b. b == 47) path.now }
{
    match path.split_once('/') {
        Some((part, _)) => part,
        None => path,
    }
}

fn behind_slash(path: &str) -> &str
    ensures { result.now ≡ after_first (λ b. b == 47) path.now }
{
    match path.split_once('/') {
        Some((_, rest)) => rest,
        None => "",
    }
}

/// The part of this number; nothing where there are fewer.
fn part_at(path: &str, number: usize) -> &str
    ensures { result.now ≡ get_or (path_parts path.now) number [] }
{
    let mut rest = path;
    for _ in 0..number {
        rest = behind_slash(rest);
    }
    before_slash(rest)
}

fn is_name_byte_at(byte: u8) -> bool
    ensures { result ≡ is_name_byte byte }
{
    byte.is_ascii_alphanumeric() || byte == b'_' || byte == b'-'
}

fn has_name_bytes(name: &[u8]) -> bool
    ensures { result ≡ list_all is_name_byte name.now }
{
    name.iter().all(|b| is_name_byte_at(*b))
}

fn is_caller_name(name: &[u8]) -> bool
    ensures { IsTrue result ↔ IsCallerName name.now }
{
    if name.is_empty() || name.len() > MOST_NAME {
        return false;
    }
    has_name_bytes(name)
}

/// The caller that a part names. A caller's name is never decoded.
pub(crate) fn caller_at(alloc: Global, path: &str, number: usize) -> Result<Words, RouteEnd>
    ensures { RoutePartReads kind.caller part.caller (get_or (path_parts path.now) number []) result }
{
    let part = part_at(path, number);
    if !is_caller_name(part.as_bytes()) {
        return Err(RouteEnd::NoRoute);
    }
    Ok(Words::of(alloc, part)?)
}

fn is_escape_at(bytes: &[u8], at: usize) -> bool
    ensures { IsTrue result ↔ ((at + 2 < length bytes.now)
        × (is_digit (slice_index bytes.now (at + 1)) 16 ≡ true)
        × (is_digit (slice_index bytes.now (at + 2)) 16 ≡ true)) }
{
    match bytes.get(at..) {
        Some([_, high, low, ..]) => {
            char::from(*high).is_digit(16) && char::from(*low).is_digit(16)
        }
        _ => false,
    }
}

fn has_whole_escapes(bytes: &[u8]) -> bool
    ensures { IsTrue result ↔ HasWholeEscapes bytes.now }
{
    for (at, byte) in bytes.iter().enumerate() {
        if *byte == b'%' && !is_escape_at(bytes, at) {
            return false;
        }
    }
    true
}

/// The gallery or table that a part names, decoded once.
pub(crate) fn title_at(alloc: Global, path: &str, number: usize) -> Result<Words, RouteEnd>
    ensures { RoutePartReads kind.title part.title (get_or (path_parts path.now) number []) result }
{
    let part = part_at(path, number);
    if part.is_empty() || !has_whole_escapes(part.as_bytes()) {
        return Err(RouteEnd::NoRoute);
    }
    match percent_decode_str(part).decode_utf8(alloc) {
        Ok(name) => Ok(Words::of(alloc, &name)?),
        Err(DecodeError::Utf8(_)) => Err(RouteEnd::NoRoute),
        Err(DecodeError::OutOfMemory) => Err(RouteEnd::Memory),
    }
}

/// The number that a part writes.
pub(crate) fn number_at(path: &str, number: usize) -> Result<u32, RouteEnd>
    ensures { RoutePartReads kind.number part.number (get_or (path_parts path.now) number []) result }
{
    let part = part_at(path, number).as_bytes();
    if part.len() > MOST_DIGITS {
        return Err(RouteEnd::NoRoute);
    }
    match number_of(part) {
        Some(value) => u32::try_from(value).map_err(|_| RouteEnd::NoRoute),
        None => Err(RouteEnd::NoRoute),
    }
}
