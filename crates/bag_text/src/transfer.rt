//! Reading the transfer form of a bag.

ghost use Rattle.std.specs.Prelude.{◌≡◌, ◌<◌, ◌≤◌, ◌^◌, List, [], length, map, ℕ, Option, option_map, codes, None, Some, Ok, Err, IfOk, IfSome, MatchResult};
ghost use Rattle.bag_text.specs.Answers.{Gives};
ghost use Rattle.bag_text.specs.TransferForm.{File, opening, ending, max_content, max_files};
ghost use Rattle.bag_text.specs.TransferReading.{literal_at, digits_at, number_at, header_at, end_or_head_at, file_at, files_at, set_of, named_set_fault, file_of, files_of, head_of, end_or_head_of, after_opening, flaw_at, result_at, entry_at};

use crate::clash::do_clash;
use crate::header::{EndOrEntry, Flaw, Header};
use crate::order::is_before;
use crate::path::{MAX_PATH, good_path};
use crate::set_fault::SetFault;
use std::alloc::Global;

/// The most bytes that the content of a bag's file has: 16 MiB.
pub const MAX_CONTENT: usize = 16_777_216;

/// The most files that a bag has.
pub const MAX_FILES: usize = 2000;

/// The most bytes of a form that is written, or read from a file: 16 MiB. One more is read there, so that
/// a longer form is told apart from these.
pub const MAX_FORM: u64 = 16_777_216;

/// What follows the bytes that a text must begin with.
#[tactic(auto, unfolding(crate::specs::TransferReading::literal_at))]
fn literal<'a>(wanted: &[u8], text: &'a [u8]) -> Result<&'a [u8], Flaw>
    ensures { MatchResult result (λ rest. literal_at wanted.now text.now ≡ Ok rest.now)
        (λ flaw. literal_at wanted.now text.now ≡ Err flaw) }
{
    let mut rest = text;
    for byte in wanted {
        match rest {
            [] => return Err(Flaw::Short),
            [first, after @ ..] => {
                if *first != *byte {
                    return Err(Flaw::Bad);
                }
                rest = after;
            }
        }
    }
    Ok(rest)
}

/// Goes on with a number after its first digit, up to the byte that stops it.
#[tactic(auto, unfolding(crate::specs::TransferReading::digits_at))]
fn digits<'a>(
    stop: u8,
    most: usize,
    first: usize,
    text: &'a [u8],
) -> Result<(usize, &'a [u8]), Flaw>
    requires most { most < 2 ^ 32 }
    requires first { first ≤ most }
    ensures bound { IfOk result (λ x. x.0 ≤ most) }
    ensures value { MatchResult result (λ x.
        digits_at stop most first text.now ≡ Ok (x.0, x.1.now))
        (λ flaw. digits_at stop most first text.now ≡ Err flaw) }
{
    let mut number = first;
    let mut rest = text;
    while let [byte, after @ ..] = rest {
        if *byte == stop {
            return Ok((number, after));
        }
        if !byte.is_ascii_digit() || number == 0 {
            return Err(Flaw::Bad);
        }
        let next = number * 10 + (*byte - b'0') as usize;
        if next > most {
            return Err(Flaw::Bad);
        }
        number = next;
        rest = after;
    }
    Err(Flaw::Short)
}

/// A number without leading zeros, and what follows the byte that stops it.
#[tactic(auto, unfolding(crate::specs::TransferReading::number_at))]
fn number<'a>(
    stop: u8,
    least: usize,
    most: usize,
    text: &'a [u8],
) -> Result<(usize, &'a [u8]), Flaw>
    requires most { most < 2 ^ 32 }
    requires digit { 9 ≤ most }
    ensures bound { IfOk result (λ x. x.0 ≤ most) }
    ensures value { MatchResult result (λ x.
        number_at stop least most text.now ≡ Ok (x.0, x.1.now))
        (λ flaw. number_at stop least most text.now ≡ Err flaw) }
{
    match text {
        [] => Err(Flaw::Short),
        [first, rest @ ..] => {
            if !first.is_ascii_digit() {
                return Err(Flaw::Bad);
            }
            let value = (*first - b'0') as usize;
            if value < least {
                return Err(Flaw::Bad);
            }
            digits(stop, most, value, rest)
        }
    }
}

#[tactic(auto, unfolding(crate::specs::TransferReading::header_at))]
fn read_header<'a>(text: &'a [u8]) -> Result<Header<'a>, Flaw>
    ensures { MatchResult result (λ h. header_at text.now ≡ Ok (head_of h))
        (λ flaw. header_at text.now ≡ Err flaw) }
{
    let rest = literal(b"FILE ", text)?;
    let (path_len, rest) = number(b' ', 1, MAX_PATH, rest)?;
    let (content_len, rest) = number(b'\n', 0, MAX_CONTENT, rest)?;
    Ok(Header {
        path_len,
        content_len,
        rest,
    })
}

#[tactic(auto, unfolding(crate::specs::TransferReading::end_or_head_at))]
fn read_end_or_entry<'a>(text: &'a [u8]) -> Result<EndOrEntry<'a>, Flaw>
    ensures { MatchResult result (λ p. end_or_head_at text.now ≡ Ok (end_or_head_of p))
        (λ flaw. end_or_head_at text.now ≡ Err flaw) }
{
    match text {
        [] => Err(Flaw::Short),
        [b'E', ..] => Ok(EndOrEntry::End(literal(b"END\n", text)?)),
        _ => Ok(EndOrEntry::Entry(read_header(text)?)),
    }
}

/// The file after a header, and what follows it.
#[tactic(auto, unfolding(crate::specs::TransferReading::file_at))]
fn read_file<'a>(
    offset: usize,
    before: &[u8],
    header: Header<'a>,
) -> Result<((&'a str, &'a [u8]), &'a [u8]), SetFault>
    ensures { MatchResult result
        (λ x. file_at offset before.now (head_of header.entry) ≡ Ok (file_of x.0, x.1.now))
        (λ fault. file_at offset before.now (head_of header.entry) ≡ Err fault) }
{
    let Header {
        path_len,
        content_len,
        rest,
    } = header;
    if rest.len() < path_len + content_len + 1 {
        return Err(SetFault::Truncated);
    }
    let (path, behind) = rest.split_at(path_len);
    let (content, behind) = behind.split_at(content_len);
    if behind[0] != b'\n' {
        return Err(SetFault::BadEntry(offset));
    }
    let path = good_path(path).ok_or(SetFault::BadPath(offset))?;
    if !is_before(before, path.as_bytes()) {
        return Err(SetFault::OutOfOrder(offset));
    }
    Ok(((path, content), &behind[1..]))
}

/// The fault of an entry that isn't read.
fn fault_at(offset: usize, flaw: Flaw) -> SetFault
    ensures { result ≡ flaw_at offset flaw }
{
    match flaw {
        Flaw::Short => SetFault::Truncated,
        Flaw::Bad => SetFault::BadEntry(offset),
    }
}

fn end_or_entry<'a>(offset: usize, text: &'a [u8]) -> Result<EndOrEntry<'a>, SetFault>
    ensures { let read = result_at offset (end_or_head_at text.now) in
        MatchResult result (λ part. read ≡ Ok (end_or_head_of part)) (λ fault. read ≡ Err fault) }
{
    match read_end_or_entry(text) {
        Ok(part) => Ok(part),
        Err(flaw) => Err(fault_at(offset, flaw)),
    }
}

/// The entry that a text begins with, and what follows it, or none at the end.
#[tactic(auto, unfolding(crate::specs::TransferReading::entry_at))]
fn read_entry<'a>(
    offset: usize,
    left: usize,
    before: &[u8],
    text: &'a [u8],
) -> Result<Option<((&'a str, &'a [u8]), &'a [u8])>, SetFault>
    ensures room { IfOk result (λ found. IfSome found (λ x. 0 < left)) }
    ensures value { MatchResult result
        (λ found.
        entry_at offset left before.now text.now
        ≡ Ok (option_map (λ x. (file_of x.0, x.1.now)) found))
        (λ fault. entry_at offset left before.now text.now ≡ Err fault) }
{
    match end_or_entry(offset, text)? {
        EndOrEntry::End(behind) => {
            if behind.is_empty() {
                Ok(None)
            } else {
                Err(SetFault::TrailingBytes)
            }
        }
        EndOrEntry::Entry(header) => {
            if left == 0 {
                return Err(SetFault::TooManyFiles);
            }
            let found = read_file(offset, before, header)?;
            Ok(Some(found))
        }
    }
}

/// The files of a text after its opening.
fn read_files<'a>(
    alloc: Global,
    whole: usize,
    body: &'a [u8],
) -> Result<Vec<(&'a str, &'a [u8])>, SetFault>
    ensures { Gives named_set_fault (λ v.
        files_of v.items) result (files_at whole max_files [] body.now) }
{
    let mut files: Vec<(&'a str, &'a [u8])> = Vec::new(alloc);
    let mut before: &'a [u8] = &[];
    let mut rest = body;
    let mut left = MAX_FILES;
    while let Some((file, behind)) = read_entry(
        whole.saturating_sub(rest.len()),
        left,
        before,
        rest,
    )? {
        files.push(file)?;
        left -= 1;
        before = file.0.as_bytes();
        rest = behind;
    }
    Ok(files)
}

/// The files of the bag whose transfer form the text is, or the first fault of the text.
#[tactic(auto, unfolding(crate::specs::TransferReading::set_of))]
pub fn read_set<'a>(alloc: Global, text: &'a [u8]) -> Result<Vec<(&'a str, &'a [u8])>, SetFault>
    ensures { Gives named_set_fault (λ v. files_of v.items) result (set_of text.now) }
{
    let body = read_opening(text)?;
    let files = read_files(alloc, text.len(), body)?;
    if do_clash(&files) {
        return Err(SetFault::PathClash);
    }
    Ok(files)
}

fn read_opening(text: &[u8]) -> Result<&[u8], SetFault>
    ensures { MatchResult result (λ rest.
        after_opening (literal_at opening text.now) ≡ Ok rest.now)
        (λ fault. after_opening (literal_at opening text.now) ≡ Err fault) }
{
    match literal(b"BAGSET 1\n", text) {
        Ok(rest) => Ok(rest),
        Err(Flaw::Short) => Err(SetFault::Truncated),
        Err(Flaw::Bad) => Err(SetFault::BadOpening),
    }
}
