//! Where the head of a request ends.

ghost use Rattle.std.specs.Prelude.{◌≡◌, ◌≤◌, length, IfSome};
ghost use Rattle.desk_heads.specs.Bounds.{max_head};
ghost use Rattle.desk_heads.specs.Ends.{head_end, empty_line_length, end_after_line_feed, head_at};

/// Where the head of a request ends in the bytes that have come.
#[derive(Clone, Copy, Debug, PartialEq, Eq)]
pub enum HeadEnd {
    /// The bytes have no head, and there are fewer than 8,192: more bytes may make one.
    Short,
    /// The first 8,192 bytes have no head.
    TooLarge,
    /// The head is that many bytes at the front.
    Found(usize),
}

/// The most bytes of a head.
const MAX_HEAD: usize = 8192;

/// The number of bytes of the empty line at the front.
fn empty_line_len(bytes: &[u8]) -> Option<usize>
    ensures value { result ≡ empty_line_length bytes.now }
    ensures small { IfSome result (λ n. n ≤ 2) }
{
    match bytes {
        [b'\n', ..] => Some(1),
        [b'\r', b'\n', ..] => Some(2),
        _ => None,
    }
}

/// The number of bytes of a line feed at the front and the empty line after it.
fn end_here(bytes: &[u8]) -> Option<usize>
    ensures value { result ≡ end_after_line_feed bytes.now }
    ensures small { IfSome result (λ n. n ≤ 3) }
{
    match bytes {
        [b'\n', rest @ ..] => Some(empty_line_len(rest)? + 1),
        _ => None,
    }
}

/// The number of bytes of the shortest front that ends with an empty line.
fn end_of_head(bytes: &[u8]) -> Option<usize>
    requires { length bytes.now ≤ max_head }
    ensures { result ≡ head_end bytes.now }
{
    for at in 0..bytes.len() {
        if let Some(n) = end_here(&bytes[at..]) {
            return Some(at + n);
        }
    }
    None
}

/// Where the head of a request ends in the bytes that have come.
#[tactic(auto, unfolding(crate::specs::Ends::head_at))]
pub fn find_head_end(bytes: &[u8]) -> HeadEnd
    ensures { result ≡ head_at bytes.now }
{
    match end_of_head(&bytes[..bytes.len().min(MAX_HEAD)]) {
        Some(n) => HeadEnd::Found(n),
        None if bytes.len() < MAX_HEAD => HeadEnd::Short,
        None => HeadEnd::TooLarge,
    }
}
