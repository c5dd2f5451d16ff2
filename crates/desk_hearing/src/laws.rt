//! Laws of the definitions alone.

ghost use Rattle.std.specs.Prelude.{◌≡◌, ◌≢◌, ◌↔◌, ◌++◌, List, ℕ, Ok, Err};
ghost use Rattle.desk_routes.specs.declared.refusal.DeskRefusal.{DeskRefusal};
ghost use Rattle.desk_routes.specs.declared.refusal.DeskRefusal.TheVariants.{Truncated};
ghost use Rattle.desk_hearing.specs.Asking.{HeardValue};
ghost use Rattle.desk_hearing.specs.Hearing.{Hearing, Hears};
ghost use Rattle.desk_hearing.specs.Refused.{IsRefused};
ghost use Rattle.desk_hearing.specs.Requests.{SpellsRequest};

/// A longer input is heard alike, unless it was cut short.
pub fn longer_input()
    ensures { (input more : List ℕ) (hearing : Hearing)
        → Hears input hearing → hearing ≢ Err Truncated → Hears (input ++ more) hearing }
{}

/// An input is heard in one way at most.
pub fn one_hearing()
    ensures { (input : List ℕ) (first second : Hearing)
        → Hears input first → Hears input second → first ≡ second }
{}

/// An input is heard as somebody asking something exactly where it begins with a head, and as long
/// a body as that announces, which together ask this.
pub fn spelled_requests()
    ensures { (input : List ℕ) (heard : HeardValue)
        → Hears input (Ok heard) ↔ SpellsRequest input heard }
{}

/// A whole input is refused for a reason exactly where each step before it passes and its own fails.
/// The steps are: the end of the head is found; the head is taken; the path names a resource that
/// takes the method; the query is as the route says; the body has come; the body is as the route says.
pub fn first_refusals()
    ensures { (input : List ℕ) (refusal : DeskRefusal)
        → Hears input (Err refusal) ↔ IsRefused input refusal }
{}
