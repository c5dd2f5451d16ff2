//! The line in which a text stops being TOML.

ghost use Rattle.std.specs.Prelude.{◌≡◌, ◌<◌, ◌≤◌, ◌+◌, IfOk, true, false, length, option_map};
ghost use Rattle.toml.specs.View.{table_view};
ghost use Rattle.fault_words.specs.Locations.{location_words};
ghost use Rattle.fault_words.specs.PolicyReasons.{BreaksToml, IsLineLocation, first_lines, is_toml, line_at, tree_in};

use crate::location::Location;
use std::alloc::{AllocError, Global};
use toml::Table;

/// The tree that the bytes spell in TOML, where they do.
pub fn tree_in(alloc: Global, bytes: &[u8]) -> Result<Option<Table>, AllocError>
    ensures { IfOk result (λ tree. option_map table_view tree ≡ tree_in bytes.now) }
{
    match toml::table_from_slice(alloc, bytes) {
        Ok(tree) => Ok(Some(tree)),
        Err(error) => {
            if error.is_memory() {
                Err(AllocError)
            } else {
                Ok(None)
            }
        }
    }
}

fn is_toml(alloc: Global, bytes: &[u8]) -> Result<bool, AllocError>
    ensures { IfOk result (λ is. is ≡ is_toml bytes.now) }
{
    Ok(tree_in(alloc, bytes)?.is_some())
}

/// The line that has the byte at this offset, from 1.
fn line_at(bytes: &[u8], offset: usize) -> usize
    requires { offset ≤ length bytes.now }
    ensures line { result ≡ line_at offset bytes.now }
    ensures bound { result ≤ length bytes.now + 1 }
{
    bytes[..offset]
        .iter()
        .filter(|byte| **byte == b'\n')
        .count()
        + 1
}

/// This number of lines from the first on, each with its end.
fn first_lines(bytes: &[u8], count: usize) -> &[u8]
    ensures { result.now ≡ first_lines count bytes.now }
{
    let mut left = count;
    for (offset, byte) in bytes.iter().enumerate() {
        if left == 0 {
            return &bytes[..offset];
        }
        if *byte == b'\n' {
            left -= 1;
        }
    }
    bytes
}

/// How many of the first lines are no TOML: as many as are named, where that is so.
fn broken_lines(alloc: Global, bytes: &[u8], named: usize) -> Result<usize, AllocError>
    requires { is_toml bytes.now ≡ false }
    ensures broken { IfOk result (λ count. is_toml (first_lines count bytes.now) ≡ false) }
    ensures some { IfOk result (λ count. 0 < count) }
{
    if is_toml(alloc, first_lines(bytes, named))? {
        Ok(bytes.len())
    } else {
        Ok(named)
    }
}

/// The line that breaks the TOML, sought back from the one that the parser names: first in small
/// steps, for it is mostly that one, and else not far before.
fn breaking_line(alloc: Global, bytes: &[u8], named: usize) -> Result<usize, AllocError>
    requires { is_toml bytes.now ≡ false }
    ensures { IfOk result (BreaksToml bytes.now) }
{
    let mut good = 0;
    let mut broken = broken_lines(alloc, bytes, named)?;
    let mut step = 1usize;
    while good + 1 < broken {
        let tried = broken - step.min((broken - good) / 2);
        if is_toml(alloc, first_lines(bytes, tried))? {
            good = tried;
        } else {
            broken = tried;
            step = step.saturating_mul(2);
        }
    }
    Ok(broken)
}

/// The line of a file that is no TOML: that of the first byte that is no UTF-8, or one that breaks the
/// TOML.
pub fn line_location(alloc: Global, bytes: &[u8]) -> Result<Location<'static>, AllocError>
    ensures { IfOk result (λ location. IsLineLocation bytes.now (location_words location)) }
{
    let text = match str::from_utf8(bytes) {
        Ok(text) => text,
        Err(error) => return Ok(Location::Line(line_at(bytes, error.valid_up_to()))),
    };
    let Err(error) = toml::table_from_str(alloc, text) else {
        return Ok(Location::Nowhere);
    };
    match error.span() {
        Some(span) => {
            let named = line_at(bytes, span.start);
            Ok(Location::Line(breaking_line(alloc, bytes, named)?))
        }
        None => Err(AllocError),
    }
}
