//! Why a head is refused.

/// Why the desk refuses a request by its head.
#[derive(Clone, Copy, Debug, PartialEq, Eq)]
pub enum HeadRefusal {
    /// The bytes aren't a head of HTTP, or it has more than 64 fields.
    BadHead,
    /// The head has a `Transfer-Encoding`.
    Chunked,
    /// The head has more than one `Content-Length`, or one that isn't 1 to 20 digits.
    BadLength,
    /// The head announces a body of more than 16,777,216 bytes.
    TooLarge,
    /// The head has more than one `Depot-Caller`.
    TwoCallers,
}
