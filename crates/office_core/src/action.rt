//! The actions that a policy speaks of.

ghost use Rattle.std.specs.Prelude.{◌≡◌, Some, IfSome, find, bytes_eq};
ghost use Rattle.office_core.specs.Actions.{action_text, action_of};
ghost use Rattle.office_core.specs.declared.action.Action.{Action};

use std::fmt;

/// What a caller wants to do.
#[derive(Clone, Copy, Debug, PartialEq, Eq)]
pub enum Action {
    /// Define or revise a class.
    Class,
    /// Define a collection.
    Collection,
    /// Deposit a bag.
    Deposit,
    /// List deposits.
    List,
    /// Read the record of a deposit.
    Record,
    /// List the holds of a deposit.
    Holds,
    /// Download a bag or a file of it.
    Download,
    /// Check the stored bag.
    Audit,
    /// Place a hold.
    Hold,
    /// Release a hold.
    Release,
    /// Destroy a deposit.
    Dispose,
}

impl Action {
    /// The word that a policy writes for the action.
    pub fn as_str(self) -> &'static str
        ensures { result.now ≡ action_text self }
    {
        match self {
            Action::Class => "class",
            Action::Collection => "collection",
            Action::Deposit => "deposit",
            Action::List => "list",
            Action::Record => "record",
            Action::Holds => "holds",
            Action::Download => "download",
            Action::Audit => "audit",
            Action::Hold => "hold",
            Action::Release => "release",
            Action::Dispose => "dispose",
        }
    }

    /// The action that the text writes, where it writes one.
    pub fn read(text: &str) -> Option<Action>
        ensures written { IfSome result (λ action. text.now ≡ action_text action) }
        ensures only { (action : Action)
            → text.now ≡ action_text action → result ≡ Some action }
        ensures first { result ≡ action_of text.now }
    {
        action_of(text)
    }
}

fn find_action(actions: &[Action], text: &str) -> Option<Action>
    ensures { result ≡ find (λ action. bytes_eq (action_text action) text.now) actions.now }
{
    actions
        .iter()
        .copied()
        .find(|action| action.as_str() == text)
}

fn action_of(text: &str) -> Option<Action>
    ensures { result ≡ action_of text.now }
{
    let actions = [
        Action::Class,
        Action::Collection,
        Action::Deposit,
        Action::List,
        Action::Record,
        Action::Holds,
        Action::Download,
        Action::Audit,
        Action::Hold,
        Action::Release,
        Action::Dispose,
    ];
    find_action(&actions, text)
}

impl fmt::Display for Action {
    ghost output = { λ action. Some (action_text action) };

    fn fmt<W: fmt::Write>(&self, f: &mut fmt::Formatter<W>) -> fmt::Result {
        f.write_str(self.as_str())
    }
}
