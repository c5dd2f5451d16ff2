//! Laws of the definitions alone.

ghost use Rattle.std.specs.Prelude.{◌≡◌, ◌≢◌, ◌↔◌, ◌<◌, ◌≤◌, ◌++◌, ℕ, List, Result, length};
ghost use Rattle.desk_heads.specs.Bounds.{max_head};
ghost use Rattle.desk_heads.specs.Ends.{IsHeadEnd, HasNoHead, head_at};
ghost use Rattle.desk_heads.specs.Heads.{HeadContents, Judges};
ghost use Rattle.desk_heads.specs.Steps.{AppliesFirst, HasNoRefusal, SaysContents};
ghost use Rattle.desk_heads.specs.declared.head_end.HeadEnd.TheVariants.{Short, TooLarge, Found};
ghost use Rattle.desk_heads.specs.declared.refusal.HeadRefusal.{HeadRefusal};

/// The head that is found is the shortest front of the input that ends with an empty line, and has
/// 8,192 bytes at most. There is none exactly where no such front ends so: then the input is too
/// short, or the head too large.
pub fn shortest_front()
    ensures found { (input : List ℕ) (n : ℕ)
        → (head_at input ≡ Found n) ↔ IsHeadEnd input n }
    ensures short { (input : List ℕ)
        → (head_at input ≡ Short) ↔ ((length input < max_head) × HasNoHead input) }
    ensures too_large { (input : List ℕ)
        → (head_at input ≡ TooLarge) ↔ ((max_head ≤ length input) × HasNoHead input) }
{}

/// More bytes change nothing once the head is decided.
pub fn longer_head()
    ensures { (input more : List ℕ) → head_at input ≢ Short
        → head_at (input ++ more) ≡ head_at input }
{}

/// A front is judged in one way at most.
pub fn one_judgement()
    ensures { (front : List ℕ) (first second : Result HeadContents HeadRefusal)
        → Judges front first → Judges front second → first ≡ second }
{}

/// A front is refused for a reason exactly where that reason applies and none of an earlier step
/// does. The steps are: it is no head; it has a `Transfer-Encoding`; its `Content-Length`; its
/// `Depot-Caller`.
pub fn first_refusal()
    ensures { (front : List ℕ) (refusal : HeadRefusal)
        → Judges front (Err refusal) ↔ AppliesFirst front refusal }
{}

/// A front is taken as saying something exactly where its head says that and no refusal applies.
pub fn taken_heads()
    ensures { (front : List ℕ) (contents : HeadContents) → Judges front (Ok contents)
        ↔ (SaysContents front contents × HasNoRefusal front) }
{}
