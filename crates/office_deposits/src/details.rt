//! What a deposit is asked with.

use office_core::{Day, Description};

/// What a deposit is asked with, beside its bag.
#[derive(Clone, Copy)]
pub struct DepositDetails<'a> {
    /// The day of the request.
    pub day: Day,
    /// The name of who asks.
    pub caller: &'a str,
    /// What the deposit is about.
    pub description: &'a Description<'a>,
}
