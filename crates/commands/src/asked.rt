//! What `explain` is asked.

use office_core::{Action, Day, Name};

/// What `explain` is asked: may that caller do that, in that collection and class, where there are
/// such, on that day?
#[derive(Drop)]
pub struct Asked<'a> {
    /// The file of the policy.
    pub policy: &'a str,
    /// The caller, any text.
    pub caller: &'a str,
    pub action: Action,
    pub collection: Option<Name<'a>>,
    pub class: Option<Name<'a>>,
    /// The day of the question, where one is named.
    pub day: Option<Day>,
}
