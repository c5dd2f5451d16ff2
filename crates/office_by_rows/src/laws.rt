//! Laws of what an office makes of its rows.

ghost use Rattle.std.specs.Prelude.{◌≡◌, ℕ, ℤ, Bool, List, Some};
ghost use Rattle.jiff.specs.Types.{Date};
ghost use Rattle.jiff.specs.Words.{epoch_day};
ghost use Rattle.office_core.specs.Days.{IsDay};
ghost use Rattle.office_core.specs.declared.action.Action.{Action};
ghost use Rattle.office_rows.specs.Rows.{Tables};
ghost use Rattle.office_by_rows.specs.Asking.{decision_for};
ghost use Rattle.office_by_rows.specs.Kinds.{AreSpelled, kind_of};
ghost use Rattle.office_by_rows.specs.Values.{day_numbered};

/// Each day of the office is that of its number, and no other day is.
pub fn days_are_numbered()
    ensures back { (day : Date) → IsDay day → day_numbered (epoch_day day) ≡ Some day }
    ensures number { (number : ℤ) (day : Date) → day_numbered number ≡ Some day
        → epoch_day day ≡ number }
{}

/// A name that no rule spells is as any other such name: pairs of a kind are decided alike, whatever the role,
/// the day and the action.
pub fn pairs_of_a_kind_are_decided_alike()
    ensures { (collections classes : List ℕ → Bool) (collection class other another : List ℕ)
        → kind_of collections classes collection class
        ≡ kind_of collections classes other another
        → (tables : Tables) → AreSpelled collections classes tables.rules
        → (role : List ℕ) (day : Date) (action : Action)
        → decision_for tables role day action (Some collection) (Some class)
        ≡ decision_for tables role day action (Some other) (Some another) }
{}
