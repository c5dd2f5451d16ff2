//! The callers of a policy.

use crate::names::OwnedName;

/// A caller and the role that the policy gives it.
#[derive(Debug, Drop)]
pub struct Caller {
    pub name: OwnedName,
    pub role: OwnedName,
}
