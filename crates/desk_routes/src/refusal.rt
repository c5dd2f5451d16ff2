//! What the desk refuses before the office is asked.

use crate::resource::PathPattern;

/// Why the desk refuses a request. The office is not asked.
#[derive(Clone, Copy, Debug, PartialEq, Eq)]
pub enum DeskRefusal {
    /// The head, or the body that it announces, is too long.
    TooLarge,
    /// The input ends before the head or the body does.
    Truncated,
    /// The head isn't an HTTP head, or has too many fields.
    BadHead,
    /// The head has a `Transfer-Encoding`.
    Chunked,
    /// The head has more than one `Content-Length`, or one that is no number.
    BadLength,
    /// The head has more than one `Depot-Caller`.
    TwoCallers,
    /// The path names nothing.
    NoRoute,
    /// The path names something that doesn't take the method.
    Method(PathPattern),
    /// The query isn't as the route says.
    BadQuery,
    /// The body isn't as the route says.
    BadBody,
}
