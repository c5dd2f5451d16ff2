//! Laws of the definitions: each is the contract of a function that does nothing.

ghost use Rattle.std.specs.Prelude.{◌≡◌, ◌↔◌, ℕ, List, [], Option, Contains};
ghost use Rattle.percent_encoding.specs.Percent.{percent_decode};
ghost use Rattle.serde_json.specs.Data.{Data};
ghost use Rattle.desk_forms.specs.Bodies.{IsJsonOf, SaysYears, SaysHold};
ghost use Rattle.desk_forms.specs.Paths.{DecodesTo};
ghost use Rattle.desk_forms.specs.Queries.{values_under, count_of, OccursOnce, AsksListing, DescribesDeposit, IsListing, IsDepositQuery};
ghost use Rattle.desk_forms.specs.declared.body.HoldBody.{HoldBody};
ghost use Rattle.office_core.specs.Descriptions.{Description};
ghost use Rattle.desk_forms.specs.declared.query.Listing.{Listing};

/// A path decodes to what it means, each triplet from the front to its octet (RFC 3986,
/// section 2.1), and to nothing else.
pub fn decoded_paths()
    ensures { (path bytes : List ℕ) → (percent_decode path ≡ bytes) ↔ DecodesTo path bytes }
{}

/// A key occurs once, with a value, exactly where one pair has the key, and that value. It has no
/// values exactly where no pair has it.
pub fn counted_keys()
    ensures once { (key value : List ℕ) (pairs : List (List ℕ × List ℕ))
        → OccursOnce key pairs value
        ↔ ((count_of key pairs ≡ 1) × Contains pairs (key, value)) }
    ensures nowhere { (key : List ℕ) (pairs : List (List ℕ × List ℕ))
        → (values_under key pairs ≡ []) ↔ (count_of key pairs ≡ 0) }
{}

/// A query asks for a listing, or describes a deposit, exactly where its keys are counted so: no
/// other key, each at most once, or once, and under each a value of its form.
pub fn counted_queries()
    ensures listing { (pairs : List (List ℕ × List ℕ))
        → ((listing : Listing) × AsksListing pairs listing) ↔ IsListing pairs }
    ensures deposit { (pairs : List (List ℕ × List ℕ))
        → ((deposit : Description) × DescribesDeposit pairs deposit) ↔ IsDepositQuery pairs }
{}

/// A query asks for one listing at most, and describes one deposit at most.
pub fn one_query()
    ensures listing { (pairs : List (List ℕ × List ℕ)) (a b : Listing)
        → AsksListing pairs a → AsksListing pairs b → a ≡ b }
    ensures deposit { (pairs : List (List ℕ × List ℕ)) (a b : Description)
        → DescribesDeposit pairs a → DescribesDeposit pairs b → a ≡ b }
{}

/// A body is a JSON text of one value at most. It says one number of years at most, and one hold at
/// most. That it asks one thing at most of any route is part of `one_hearing` of `desk_hearing`.
pub fn one_body()
    ensures json { (body : List ℕ) (a b : Data)
        → IsJsonOf body a → IsJsonOf body b → a ≡ b }
    ensures years { (body : List ℕ) (a b : Option ℕ)
        → SaysYears body a → SaysYears body b → a ≡ b }
    ensures hold { (body : List ℕ) (a b : HoldBody)
        → SaysHold body a → SaysHold body b → a ≡ b }
{}
