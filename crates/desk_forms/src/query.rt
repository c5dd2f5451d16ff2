//! What the queries of routes say: form pairs, and the values under the keys of a route.

ghost use Rattle.std.specs.Prelude.{◌≡◌, ◌↔◌, ◌≤◌, ℕ, List, [], length, map, nat_eq, true, false, Option, IsOk, IfOk, IfErr, option_map};
ghost use Rattle.std.specs.Option.{option_to_list};
ghost use Rattle.std.specs.Cmp.Lexicographic.{pointwise};
ghost use Rattle.std.specs.List.{list_any};
ghost use Rattle.std.specs.Cow.{cow_str_bytes};
ghost use Rattle.jiff.specs.Types.{Date};
ghost use Rattle.office_core.specs.Days.{IsDay, day_text};
ghost use Rattle.office_core.specs.Descriptions.{Description};
ghost use Rattle.office_core.specs.Names.{IsName, IsAccession};
ghost use Rattle.office_core.specs.Policies.{is_one_of};
ghost use Rattle.desk_forms.specs.declared.query.QueryFault.TheVariants.{Memory};
ghost use Rattle.desk_forms.specs.Queries.{text_of, query_pairs, values_under, OccursOnce, GivesName, AsksListing, DescribesDeposit};
ghost use Rattle.desk_forms.specs.QueryReading.{has_only};

use form_urlencoded::{decode, raw_pairs};
use office_core::{
    Accession, Day, DescriptionOf, Name, OwnedAccession, OwnedDescription, OwnedName,
};
use std::alloc::{AllocError, Global};
use std::borrow::CowStr;

/// Which deposits a list is asked for: those of one collection, of one class, of both, or all.
#[derive(Debug, Drop)]
pub struct Listing {
    pub collection: Option<OwnedName>,
    pub class: Option<OwnedName>,
}

/// Why a query isn't read.
#[derive(Clone, Copy, Debug, PartialEq, Eq)]
pub enum QueryFault {
    /// It isn't as the route says.
    BadQuery,
    /// There is no memory to read it.
    Memory,
}

impl From<AllocError> for QueryFault {
    ghost from_gives = { λ _ fault. fault ≡ Memory };

    fn from(_: AllocError) -> QueryFault {
        QueryFault::Memory
    }
}

/// The query of a route without keys: `BadQuery` where there is a pair.
pub fn check_no_query(query: &[u8]) -> Result<(), QueryFault>
    ensures taken { IsOk result ↔ (query_pairs query.now ≡ []) }
    ensures fault { IfErr result (λ fault. fault ≡ QueryFault.BadQuery) }
{
    match raw_pairs(query).next() {
        None => Ok(()),
        Some(_) => Err(QueryFault::BadQuery),
    }
}

/// Whether an encoded key is this one.
fn is_key(alloc: Global, encoded: &[u8], key: &str) -> Result<bool, AllocError>
    ensures { IfOk result (λ same. same ≡ pointwise nat_eq (text_of encoded.now) key.now) }
{
    Ok(decode(alloc, encoded)?.as_str() == key)
}

/// Whether a key is one of these.
fn is_one_of(key: &str, keys: &[&str]) -> bool
    ensures { result ≡ list_any (λ known. pointwise nat_eq key.now known.now) keys.now }
{
    keys.iter().any(|known| key == *known)
}

/// Whether an encoded key is one of these.
fn is_known(alloc: Global, encoded: &[u8], keys: &[&str]) -> Result<bool, AllocError>
    ensures { IfOk result
        (λ known. known ≡ is_one_of (map (λ key. key.now) keys.now) (text_of encoded.now)) }
{
    let key = decode(alloc, encoded)?;
    Ok(is_one_of(key.as_str(), keys))
}

/// `BadQuery` where a pair has another key than these.
fn check_keys(alloc: Global, query: &[u8], keys: &[&str]) -> Result<(), QueryFault>
    ensures taken { IfOk result
        (λ _. has_only (map (λ key. key.now) keys.now) (query_pairs query.now) ≡ true) }
    ensures refused { result ≡ Err QueryFault.BadQuery
        → has_only (map (λ key. key.now) keys.now) (query_pairs query.now) ≡ false }
{
    'pairs: for (key, _) in raw_pairs(query) {
        if !is_known(alloc, key, keys)? {
            return Err(QueryFault::BadQuery);
        }
    }
    Ok(())
}

/// The value under a key: `BadQuery` where the key occurs in more than one pair.
fn find_value<'a>(
    alloc: Global,
    query: &'a [u8],
    key: &str,
) -> Result<Option<CowStr<'a, Global>>, QueryFault>
    ensures found { IfOk result (λ value. values_under key.now (query_pairs query.now)
        ≡ option_to_list (option_map cow_str_bytes value)) }
    ensures refused { result ≡ Err QueryFault.BadQuery
        → 2 ≤ length (values_under key.now (query_pairs query.now)) }
{
    let mut found = None;
    'pairs: for (name, value) in raw_pairs(query) {
        if !is_key(alloc, name, key)? {
            continue;
        }
        if found.is_some() {
            return Err(QueryFault::BadQuery);
        }
        found = Some(decode(alloc, value)?);
    }
    Ok(found)
}

/// The value under a key that occurs in one pair.
fn need_value<'a>(
    alloc: Global,
    query: &'a [u8],
    key: &str,
) -> Result<CowStr<'a, Global>, QueryFault>
    ensures found { IfOk result
        (λ value. OccursOnce key.now (query_pairs query.now) (cow_str_bytes value)) }
    ensures refused { result ≡ Err QueryFault.BadQuery → (value : List ℕ)
        → ¬ OccursOnce key.now (query_pairs query.now) value }
{
    match find_value(alloc, query, key)? {
        Some(value) => Ok(value),
        None => Err(QueryFault::BadQuery),
    }
}

/// The name that a text is.
fn own_name(alloc: Global, text: &str) -> Result<OwnedName, QueryFault>
    ensures name { IfOk result (λ name. (name ≡ text.now) × IsName name) }
    ensures refused { result ≡ Err QueryFault.BadQuery → ¬ IsName text.now }
{
    match Name::read(text) {
        Some(name) => Ok(name.to_owned(alloc)?),
        None => Err(QueryFault::BadQuery),
    }
}

/// The accession number that a text is.
fn own_accession(alloc: Global, text: &str) -> Result<OwnedAccession, QueryFault>
    ensures accession { IfOk result
        (λ accession. (accession ≡ text.now) × IsAccession accession) }
    ensures refused { result ≡ Err QueryFault.BadQuery → ¬ IsAccession text.now }
{
    match Accession::read(text) {
        Some(accession) => Ok(accession.to_owned(alloc)?),
        None => Err(QueryFault::BadQuery),
    }
}

/// The name under a key, where there is the key.
fn find_name(alloc: Global, query: &[u8], key: &str) -> Result<Option<OwnedName>, QueryFault>
    ensures found { IfOk result (λ name. GivesName key.now (query_pairs query.now) name) }
    ensures refused { result ≡ Err QueryFault.BadQuery → (name : Option (List ℕ))
        → ¬ GivesName key.now (query_pairs query.now) name }
{
    match find_value(alloc, query, key)? {
        Some(text) => Ok(Some(own_name(alloc, text.as_str())?)),
        None => Ok(None),
    }
}

/// The name under a key that has to be there.
fn need_name(alloc: Global, query: &[u8], key: &str) -> Result<OwnedName, QueryFault>
    ensures found { IfOk result
        (λ name. OccursOnce key.now (query_pairs query.now) name × IsName name) }
    ensures refused { result ≡ Err QueryFault.BadQuery → (name : List ℕ)
        → ¬ (OccursOnce key.now (query_pairs query.now) name × IsName name) }
{
    own_name(alloc, need_value(alloc, query, key)?.as_str())
}

/// The accession number under a key that has to be there.
fn need_accession(alloc: Global, query: &[u8], key: &str) -> Result<OwnedAccession, QueryFault>
    ensures found { IfOk result (λ accession.
        OccursOnce key.now (query_pairs query.now) accession × IsAccession accession) }
    ensures refused { result ≡ Err QueryFault.BadQuery → (accession : List ℕ)
        → ¬ (OccursOnce key.now (query_pairs query.now) accession × IsAccession accession) }
{
    own_accession(alloc, need_value(alloc, query, key)?.as_str())
}

/// The day under a key that has to be there.
fn need_day(alloc: Global, query: &[u8], key: &str) -> Result<Day, QueryFault>
    ensures found { IfOk result
        (λ day. OccursOnce key.now (query_pairs query.now) (day_text day) × IsDay day) }
    ensures refused { result ≡ Err QueryFault.BadQuery → (day : Date)
        → ¬ (OccursOnce key.now (query_pairs query.now) (day_text day) × IsDay day) }
{
    match Day::read(need_value(alloc, query, key)?.as_str()) {
        Some(day) => Ok(day),
        None => Err(QueryFault::BadQuery),
    }
}

/// What the query of a list asks for: `collection` and `class`, each at most once and a name.
/// `BadQuery` where it asks for none, and `Memory` where there is no memory.
pub fn read_listing(alloc: Global, query: &[u8]) -> Result<Listing, QueryFault>
    ensures listing { IfOk result (λ listing. AsksListing (query_pairs query.now) listing) }
    ensures refused { result ≡ Err QueryFault.BadQuery → (listing : Listing)
        → ¬ AsksListing (query_pairs query.now) listing }
{
    check_keys(alloc, query, &["collection", "class"])?;
    Ok(Listing {
        collection: find_name(alloc, query, "collection")?,
        class: find_name(alloc, query, "class")?,
    })
}

/// What the query of a deposit says of it: `collection` and `class`, which are names, `accession`,
/// an accession number, and `closed`, a day, each once. `BadQuery` where it describes no deposit,
/// and `Memory` where there is no memory.
pub fn read_deposit_query(alloc: Global, query: &[u8]) -> Result<OwnedDescription, QueryFault>
    ensures deposit { IfOk result (λ deposit. DescribesDeposit (query_pairs query.now) deposit) }
    ensures refused { result ≡ Err QueryFault.BadQuery → (deposit : Description)
        → ¬ DescribesDeposit (query_pairs query.now) deposit }
{
    check_keys(
        alloc,
        query,
        &["collection", "class", "accession", "closed"],
    )?;
    Ok(DescriptionOf {
        collection: need_name(alloc, query, "collection")?,
        class: need_name(alloc, query, "class")?,
        accession: need_accession(alloc, query, "accession")?,
        closed: need_day(alloc, query, "closed")?,
    })
}
