//! Laws of the rows.

ghost use Rattle.std.specs.Prelude.{◌≡◌, ◌≢◌, ◌≤◌, ◌↔◌, ℕ, ℤ, pos, List, [], ◌∷◌, ◌++◌, Some, None};
ghost use Rattle.std.specs.List.{AllByRecursion};
ghost use Rattle.std.specs.List.Sorted.{IsPermutation};
ghost use Rattle.std.specs.Ordering.{int_cmp};
ghost use Rattle.std.specs.declared.cmp.Ordering.TheVariants.{Less};
ghost use Rattle.office_rows.specs.Rows.{Tables, CallerRow, RuleRow, IsLimit, NumbersBelow, NumbersRise, NumbersDiffer, PlacesRise, put_by, sorted_by, last_number, with_policy};

/// A limit is one of the numbers from 1 to 1,000,000.
pub fn limits_are_in_range()
    ensures { (n : ℕ) → IsLimit (pos n) ↔ ((1 ≤ n) × (n ≤ 1_000_000)) }
{}

/// A row whose number is above all others comes at the end.
pub fn highest_comes_last<Row>()
    ensures { (number : Row → ℤ) (row : Row) (rows : List Row)
        → NumbersBelow number (number row) rows
        → put_by number row rows ≡ rows ++ row ∷ [] }
{}

/// A row whose number is new comes to rows whose numbers rise in such a place that they still rise.
pub fn new_rows_keep_the_order<Row>()
    ensures rises { (number : Row → ℤ) (row : Row) (rows : List Row) → NumbersRise number rows
        → AllByRecursion (λ r. number r ≢ number row) rows
        → NumbersRise number (put_by number row rows) }
    ensures each { (number : Row → ℤ) (row : Row) (rows : List Row)
        → IsPermutation (row ∷ rows) (put_by number row rows) }
{}

/// A policy has just these rules; their places rise where no two have one place; and the rules are
/// as they are where their places rise.
pub fn rules_are_sorted()
    ensures sorted { (rules : List RuleRow) → NumbersDiffer (λ r. r.place) rules
        → PlacesRise (sorted_by (λ r. r.place) rules) }
    ensures each { (rules : List RuleRow)
        → IsPermutation rules (sorted_by (λ r. r.place) rules) }
    ensures rising { (callers : List CallerRow) (rules : List RuleRow) (tables : Tables)
        → PlacesRise rules
        → with_policy callers rules tables
        ≡ record tables { callers = callers; rules = rules } }
{}

/// The last number of rows whose numbers rise is the highest: what is above it is above each. Where there is none, there is no row.
pub fn last_number_is_highest<Row>()
    ensures above { (number : Row → ℤ) (rows : List Row) (last next : ℤ)
        → NumbersRise number rows
        → last_number number rows ≡ Some last → int_cmp last next ≡ Less
        → NumbersBelow number next rows }
    ensures first { (number : Row → ℤ) (rows : List Row) (next : ℤ)
        → last_number number rows ≡ None → NumbersBelow number next rows }
{}
