//! Policies by their names.

use test_sessions::POLICY_WITH_DAYS;

/// The class `y1` is held no more, and its holds are not released: rules that name a class, and no collection.
const Y1_AS_IT_IS_HELD: &str =
    "version = 1\n\n[callers]\nanna = \"archivist\"\n\n[[rule]]\neffect = \"deny\"\nrole = \"archivist\"\naction = \"hold\"\ncollection = \"*\"\nclass = \"y1\"\n\n[[rule]]\neffect = \"deny\"\nrole = \"archivist\"\naction = \"release\"\ncollection = \"*\"\nclass = \"y1\"\n\n[[rule]]\neffect = \"allow\"\nrole = \"archivist\"\naction = \"*\"\ncollection = \"*\"\nclass = \"*\"\n";

/// `carl` may list in January 2025.
const LISTS_IN_JANUARY: &str =
    "version = 2\n\n[callers]\nanna = \"archivist\"\ncarl = \"clerk\"\n\n[[rule]]\neffect = \"allow\"\nrole = \"archivist\"\naction = \"*\"\ncollection = \"*\"\nclass = \"*\"\n\n[[rule]]\neffect = \"allow\"\nrole = \"clerk\"\naction = \"list\"\ncollection = \"*\"\nclass = \"*\"\nfirst = \"2025-01-01\"\nlast = \"2025-01-31\"\n";

/// `anna` may destroy what is of the collection `tax` in January 2031 alone, and `carl` may list from its first day on.
const TAX_IN_JANUARY: &str =
    "version = 2\n\n[callers]\nanna = \"archivist\"\ncarl = \"clerk\"\n\n[[rule]]\neffect = \"allow\"\nrole = \"archivist\"\naction = \"dispose\"\ncollection = \"tax\"\nclass = \"*\"\nfirst = \"2031-01-01\"\nlast = \"2031-01-31\"\n\n[[rule]]\neffect = \"deny\"\nrole = \"archivist\"\naction = \"dispose\"\ncollection = \"tax\"\nclass = \"*\"\n\n[[rule]]\neffect = \"allow\"\nrole = \"archivist\"\naction = \"*\"\ncollection = \"*\"\nclass = \"*\"\n\n[[rule]]\neffect = \"allow\"\nrole = \"clerk\"\naction = \"list\"\ncollection = \"*\"\nclass = \"*\"\nfirst = \"2031-01-01\"\n";

/// The text of the policy of that name.
pub(crate) fn policy_named(name: &str) -> Option<&'static str> {
    match name {
        "nothing of tax is destroyed in 2024" => Some(POLICY_WITH_DAYS),
        "y1 stays as it is held" => Some(Y1_AS_IT_IS_HELD),
        "lists in January 2025" => Some(LISTS_IN_JANUARY),
        "tax is destroyed in January 2031" => Some(TAX_IN_JANUARY),
        _ => None,
    }
}
