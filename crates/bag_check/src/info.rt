//! What `bag-info.txt` says of the payload.

ghost use Rattle.std.specs.Prelude.{◌≡◌, length, not, is_some};
ghost use Rattle.std.specs.List.{list_any};
ghost use Rattle.std.specs.Cow.{cow_str_bytes};
ghost use Rattle.bag_text.specs.Answers.{Gives};
ghost use Rattle.bag_text.specs.InfoReading.{info_of, pairs_in, pairs_of, pair_in};
ghost use Rattle.bag_check.specs.Validity.{is_oxum, oxums_of};
ghost use Rattle.bag_check.specs.OxumReading.{counts_of};
ghost use Rattle.bag_check.specs.Judging.{or_info, are_others, oxums_obeyed, obeys_info};
ghost use Rattle.bag_check.specs.Answers.{named_fault};

use crate::fault::BagFault;
use crate::oxum::read_counts;
use crate::payload::count_payload;
use bag_text::{BagInfo, BagSet, InfoFault, read_bag_info};
use std::alloc::Global;
use std::borrow::CowStr;

/// What the text says, or its fault as one of the bag.
fn read_info<'a>(alloc: Global, text: &'a [u8]) -> Result<BagInfo<'a>, BagFault<'a>>
    ensures { Gives named_fault pairs_in result (or_info (info_of text.now)) }
{
    match read_bag_info(alloc, text) {
        Ok(info) => Ok(info),
        Err(InfoFault::Memory) => Err(BagFault::Memory),
        Err(fault) => Err(BagFault::InfoText(fault)),
    }
}

/// Whether the label of a pair is `Payload-Oxum`, in any ASCII case.
fn is_oxum(pair: &(&str, CowStr<'_, Global>)) -> bool
    ensures { result ≡ is_oxum (pair_in pair.now) }
{
    pair.0.eq_ignore_ascii_case("payload-oxum")
}

/// Whether the value of a pair names no counts.
fn is_formless(pair: &(&str, CowStr<'_, Global>)) -> bool
    ensures { result ≡ not (is_some (counts_of (cow_str_bytes pair.now.1))) }
{
    read_counts(pair.1.as_str().as_bytes()).is_none()
}

/// Whether the value of a pair names other counts than the payload's.
fn names_others(bag: &BagSet<'_>, pair: &(&str, CowStr<'_, Global>)) -> bool
    ensures { result ≡ are_others bag.now (counts_of (cow_str_bytes pair.now.1)) }
{
    let payload = count_payload(bag);
    match read_counts(pair.1.as_str().as_bytes()) {
        Some(counts) => counts.bytes != payload.bytes as u128
            || counts.files != payload.files as u128,
        None => false,
    }
}

/// Whether some `Payload-Oxum` isn't two numbers with a full stop between them.
fn has_formless(pairs: &[(&str, CowStr<'_, Global>)]) -> bool
    ensures { result ≡
        list_any (λ value. not (is_some (counts_of value))) (oxums_of (pairs_of pairs.now)) }
{
    pairs.iter().any(|pair| is_oxum(pair) && is_formless(pair))
}

/// How many pairs are a `Payload-Oxum`.
fn count_oxums(pairs: &[(&str, CowStr<'_, Global>)]) -> usize
    ensures { result ≡ length (oxums_of (pairs_of pairs.now)) }
{
    pairs.iter().filter(|pair| is_oxum(pair)).count()
}

/// Whether some `Payload-Oxum` names other counts than the payload's.
fn has_others(bag: &BagSet<'_>, pairs: &[(&str, CowStr<'_, Global>)]) -> bool
    ensures { result ≡
        list_any (λ value. are_others bag.now (counts_of value)) (oxums_of (pairs_of pairs.now)) }
{
    pairs
        .iter()
        .any(|pair| is_oxum(pair) && names_others(bag, pair))
}

/// Refuses a `Payload-Oxum` that isn't right.
fn check_oxums<'a>(
    bag: &BagSet<'_>,
    pairs: &[(&str, CowStr<'_, Global>)],
) -> Result<(), BagFault<'a>>
    ensures { Gives named_fault (λ unit.
        unit) result (oxums_obeyed bag.now (oxums_of (pairs_of pairs.now))) }
{
    if has_formless(pairs) {
        return Err(BagFault::OxumForm);
    }
    if count_oxums(pairs) > 1 {
        return Err(BagFault::OxumTwice);
    }
    if has_others(bag, pairs) {
        return Err(BagFault::OxumWrong);
    }
    Ok(())
}

/// Refuses a bag whose `bag-info.txt` can't be read, or has a `Payload-Oxum` that isn't right.
pub fn check_info<'a>(alloc: Global, bag: &BagSet<'a>) -> Result<(), BagFault<'a>>
    ensures { Gives named_fault (λ unit. unit) result (obeys_info bag.now) }
{
    let Some(text) = bag.get("bag-info.txt") else {
        return Ok(());
    };
    let info = read_info(alloc, text)?;
    check_oxums(bag, info.pairs.as_slice())
}
