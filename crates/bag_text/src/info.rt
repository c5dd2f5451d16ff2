//! Reading `bag-info.txt`.

ghost use Rattle.std.specs.Prelude.{◌≡◌, ◌==◌, ◌↔◌, ◌⊎◌, true, false, List, [], ◌∷◌, ◌++◌, length, ℕ, Option, option_map, None, Some, Ok, Err, IfOk, IfErr, MatchResult, Contains, if◌then◌else◌};
ghost use Rattle.std.specs.List.{list_any, position_or_len};
ghost use Rattle.std.specs.Str as utf8;
ghost use Rattle.std.specs.Cow.{cow_str_bytes, IsBorrowedStr};
ghost use Rattle.std.specs.Global.{Global};
ghost use Rattle.std.specs.declared.borrow.CowStr.{CowStr};
ghost use denote.Ref.{Bor};
ghost use Rattle.bag_text.specs.Answers.{Gives};
ghost use Rattle.bag_text.specs.Lines.{is_end, lines};
ghost use Rattle.bag_text.specs.BagInfo.{Pair, is_colon, begins_blank, SaysInfo, InfoFaultIs};
ghost use Rattle.bag_text.specs.InfoReading.{colon_cut, pair_of, extend_last, add_info_line, pairs_from, info_of, named_info_fault, pairs_of, pairs_in, has_line_feed, AreMarked};
ghost use Rattle.bag_text.specs.ManifestReading.{is_owned};
ghost use Rattle.bag_text.specs.declared.bag_info.InfoFault.{InfoFault};
ghost use Rattle.bag_text.specs.declared.bag_info.InfoFault.TheVariants.{StrayContinuation, Memory};

use crate::bag_info::{BagInfo, InfoFault};
use crate::lines::split_line;
use crate::text::{
    as_text, has_byte_order_mark, is_blank_byte, is_text, without_first_blanks, without_last_blanks,
};
use std::alloc::{AllocError, Global};
use std::borrow::CowStr;

/// Bytes that are known to be text.
fn text_of(bytes: &[u8]) -> &str
    requires { utf8.is_utf8 bytes.now ≡ true }
    ensures { result.now ≡ bytes.now }
{
    as_text(bytes).unwrap()
}

/// How many bytes come before the first colon.
fn label_len(line: &[u8]) -> usize
    ensures { result ≡ position_or_len is_colon line.now }
{
    line.iter().position(|b| *b == b':').unwrap_or(line.len())
}

/// What comes before the first colon, and after it.
#[tactic(auto, using(crate::proofs::InfoReadLemmas::colon_fits))]
fn split_colon(line: &[u8]) -> Option<(&[u8], &[u8])>
    ensures { option_map (λ x. (x.0.now, x.1.now)) result ≡ colon_cut line.now }
{
    let (before, rest) = line.split_at(label_len(line));
    match rest {
        [] => None,
        [_, after @ ..] => Some((before, after)),
    }
}

/// The label and the value of a line.
fn read_pair<'a>(number: usize, line: &'a [u8]) -> Result<(&'a str, &'a str), InfoFault>
    requires { utf8.is_utf8 line.now ≡ true }
    ensures { MatchResult result
        (λ pair. pair_of number line.now ≡ Ok (record { label = pair.0.now; value = pair.1.now }))
        (λ fault. pair_of number line.now ≡ Err fault) }
{
    let Some((before, after)) = split_colon(line) else {
        return Err(InfoFault::NoColon(number));
    };
    let label = without_last_blanks(before);
    if label.is_empty() {
        return Err(InfoFault::EmptyLabel(number));
    }
    Ok((text_of(label), text_of(without_first_blanks(after))))
}

/// A value with one line more.
fn join_line<'a>(
    alloc: Global,
    value: CowStr<'a, Global>,
    line: &str,
) -> Result<CowStr<'a, Global>, AllocError>
    ensures value { IfOk result (λ now.
        cow_str_bytes now ≡ cow_str_bytes value.entry ++ 10 ∷ line.now) }
    ensures owned { IfOk result (λ now. is_owned now ≡ true) }
{
    let mut text = value.into_owned(alloc)?;
    text.push('\n')?;
    text.push_str(line)?;
    Ok(CowStr::Owned(text))
}

/// Continues the last pair's value.
fn continue_last<'a>(
    alloc: Global,
    number: usize,
    line: &str,
    pairs: &mut Vec<(&'a str, CowStr<'a, Global>)>,
) -> Result<(), InfoFault>
    ensures value { Gives named_info_fault (λ x.
        pairs_of pairs.new.items) result
        (if length (pairs_of pairs.old.items) == 0 then Err (StrayContinuation number) else Ok
        (extend_last (pairs_of pairs.old.items) line.now)) }
    ensures marked { AreMarked pairs.old.items → IfOk result (λ x. AreMarked pairs.new.items) }
{
    let Some((label, value)) = pairs.pop() else {
        return Err(InfoFault::StrayContinuation(number));
    };
    let value = join_line(alloc, value, line)?;
    let Ok(()) = pairs.push((label, value)) else {
        return Err(InfoFault::Memory);
    };
    Ok(())
}

/// Whether a line continues a value.
fn is_continuation(line: &[u8]) -> bool
    ensures { result ≡ begins_blank line.now }
{
    match line {
        [] => false,
        [first, ..] => is_blank_byte(*first),
    }
}

/// Adds what a line says.
#[tactic(auto, unfolding(crate::specs::InfoReading::add_info_line))]
fn add_line<'a>(
    alloc: Global,
    number: usize,
    line: &'a [u8],
    pairs: &mut Vec<(&'a str, CowStr<'a, Global>)>,
) -> Result<(), InfoFault>
    requires { utf8.is_utf8 line.now ≡ true }
    ensures value { Gives named_info_fault (λ x.
        pairs_of pairs.new.items) result
        (add_info_line number (pairs_of pairs.old.items) line.now) }
    ensures marked { list_any is_end line.now ≡ false → AreMarked pairs.old.items
        → IfOk result (λ x. AreMarked pairs.new.items) }
{
    let rest = without_first_blanks(line);
    if rest.is_empty() {
        return Ok(());
    }
    if is_continuation(line) {
        return continue_last(alloc, number, text_of(rest), pairs);
    }
    let (label, value) = read_pair(number, line)?;
    let Ok(()) = pairs.push((label, CowStr::Borrowed(value))) else {
        return Err(InfoFault::Memory);
    };
    Ok(())
}

/// What the lines of a text say.
fn read_pairs<'a>(
    alloc: Global,
    text: &'a [u8],
) -> Result<Vec<(&'a str, CowStr<'a, Global>)>, InfoFault>
    requires { utf8.is_utf8 text.now ≡ true }
    ensures value { Gives named_info_fault (λ pairs.
        pairs_of pairs.items) result (pairs_from 1 [] (lines text.now)) }
    ensures marked { IfOk result (λ pairs. AreMarked pairs.items) }
{
    let mut pairs: Vec<(&'a str, CowStr<'a, Global>)> = Vec::new(alloc);
    let mut rest = text;
    let mut number: usize = 1;
    while !rest.is_empty() {
        let (line, after) = split_line(rest);
        add_line(alloc, number, line, &mut pairs)?;
        rest = after;
        number += 1;
    }
    Ok(pairs)
}

/// What the lines of a text say, or its first fault.
#[tactic(auto, unfolding(crate::specs::InfoReading::info_of))]
fn read_lines<'a>(alloc: Global, text: &'a [u8]) -> Result<BagInfo<'a>, InfoFault>
    ensures value { Gives named_info_fault pairs_in result (info_of text.now) }
    ensures marked { IfOk result (λ info. AreMarked info.pairs.items) }
{
    if !is_text(text) {
        return Err(InfoFault::NotUtf8);
    }
    if has_byte_order_mark(text) {
        return Err(InfoFault::ByteOrderMark);
    }
    let pairs = read_pairs(alloc, text)?;
    Ok(BagInfo { pairs })
}

/// Reads `bag-info.txt` (RFC 8493, section 2.2.2): its labels and values in order, or the first fault of the text.
///
/// Each line is a label, a colon and a value; the blanks round the colon are dropped. A line that begins with a
/// blank continues the value before it, and is joined to it, without its first blanks, by one LF. Lines of blanks
/// are skipped. A value is borrowed from the text where no line continues it.
pub fn read_bag_info<'a>(alloc: Global, text: &'a [u8]) -> Result<BagInfo<'a>, InfoFault>
    // What is read is what the text says, its pairs in order.
    ensures says { IfOk result (λ info. SaysInfo text.now (pairs_in info)) }
    // Where a text says pairs they are read, unless memory runs out.
    ensures reads { (pairs : List Pair) → SaysInfo text.now pairs →
        MatchResult result (λ info. pairs_in info ≡ pairs) (λ fault. fault ≡ Memory) }

    // A value is borrowed exactly where it has no LF, so where no line continues it.
    ensures borrowed { IfOk result (λ info.
        (label : Bor (List ℕ)) (value : CowStr Global)
        → Contains info.pairs.items (label, value)
        → IsBorrowedStr value ↔ (has_line_feed (cow_str_bytes value) ≡ false)) }

    // A refusal names the first fault of the text, and where one applies it is the answer, unless memory runs out.
    ensures refused { IfErr result (λ fault. (fault ≡ Memory) ⊎ InfoFaultIs text.now fault) }
    ensures first_fault { (fault : InfoFault) → InfoFaultIs text.now fault →
        (result ≡ Err fault) ⊎ (result ≡ Err Memory) }

    // The same by computing.
    ensures exact { Gives named_info_fault pairs_in result (info_of text.now) }
{
    read_lines(alloc, text)
}
