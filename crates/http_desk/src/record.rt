//! Records of requests.

ghost use Rattle.std.specs.Prelude.{◌≡◌, ◌++◌, ◌∷◌, ◌≤◌, ◌<◌, ℕ, List, take, length, Some, IfSome, IfNone, position, ◌==◌};
ghost use Rattle.jiff.specs.Types.{Date};
ghost use Rattle.office_core.specs.Days.{IsDay, day_text};
ghost use Rattle.http_desk.specs.Records.{IsLine, line_text, IsRecord, record_text, HasNoLineFeed};
ghost use Rattle.http_desk.specs.RecordReading.{has_marks, LineSays};
ghost use Rattle.http_desk.specs.Finds.{FoundIn, whole_of};

use crate::digits::read_length;
use office_core::Day;
use std::str;

/// What is where a record may begin.
#[derive(Clone, Copy, Debug, PartialEq, Eq)]
pub enum Found<'a> {
    /// A record.
    Whole {
        /// The day of the request.
        day: Day,
        /// The bytes of the request.
        bytes: &'a [u8],
        /// What follows the record.
        rest: &'a [u8],
    },
    /// A beginning: more bytes are wanted.
    More,
    /// Whatever follows, no record.
    Bad,
}

/// The most bytes of a record's line and its line feed.
const MAX_LINE: usize = 24;

/// The day that ten bytes write.
fn read_day(text: &[u8]) -> Option<Day>
    ensures written { IfSome result (λ day. IsDay day × (text.now ≡ day_text day)) }
    ensures only { (day : Date)
        → IsDay day → text.now ≡ day_text day → result ≡ Some day }
{
    match str::from_utf8(text) {
        Ok(text) => Day::read(text),
        Err(_) => None,
    }
}

/// Whether a line has the word and the blanks of a record's line at their positions.
fn has_marks(line: &[u8]) -> bool
    ensures { result ≡ has_marks line.now }
{
    line.len() > 15 && &line[..4] == "REQ ".as_bytes() && line[14] == b' '
}

/// The day and the number of bytes that a record's line says.
fn read_line(line: &[u8]) -> Option<(Day, usize)>
    ensures written { IfSome result (λ said.
        IsLine said.0 said.1 × (line.now ≡ line_text said.0 said.1)) }
    ensures only { (day : Date) (count : ℕ)
        → IsLine day count → line.now ≡ line_text day count
        → result ≡ Some (day, count) }
{
    if !has_marks(line) {
        return None;
    }
    let day = read_day(&line[4..14])?;
    let count = read_length(&line[15..])?;
    Some((day, count))
}

/// The offset of the first line feed.
fn line_feed_in(text: &[u8]) -> Option<usize>
    ensures offset { result ≡ position (λ b. b == 10) text.now }
    ensures within { IfSome result (λ at. at < length text.now) }
{
    text.iter().position(|b| *b == b'\n')
}

/// The first line, and what follows its line feed, where the line isn't too long.
fn first_line(bytes: &[u8]) -> Option<(&[u8], &[u8])>
    ensures cut { IfSome result (λ parts. HasNoLineFeed parts.0.now
        × (bytes.now ≡ parts.0.now ++ 10 ∷ parts.1.now)) }
    ensures none { IfNone result (HasNoLineFeed (take 24 bytes.now)) }
{
    match line_feed_in(&bytes[..bytes.len().min(MAX_LINE)]) {
        Some(at) => Some((&bytes[..at], &bytes[at + 1..])),
        None => None,
    }
}

/// What a line and the bytes after it say.
fn after_line<'a>(line: &'a [u8], body: &'a [u8]) -> Found<'a>
    ensures { LineSays result line.now body.now }
{
    let Some((day, count)) = read_line(line) else {
        return Found::Bad;
    };
    if body.len() <= count {
        return Found::More;
    }
    if body[count] != b'\n' {
        return Found::Bad;
    }
    Found::Whole {
        day,
        bytes: &body[..count],
        rest: &body[count + 1..],
    }
}

/// What is where a record may begin: a record and what follows it; a beginning, where more bytes are
/// wanted; or what no bytes that follow make a record. A line is judged once its line feed has come,
/// or once it is longer than a record's line can be.
pub fn record_at(bytes: &[u8]) -> Found<'_>
    ensures found { FoundIn result bytes.now }
    ensures only { (day : Date) (request rest : List ℕ) → IsRecord day request
        → bytes.now ≡ record_text day request ++ rest
        → whole_of result ≡ Some (day, request, rest) }
{
    match first_line(bytes) {
        Some((line, body)) => after_line(line, body),
        None if bytes.len() < MAX_LINE => Found::More,
        None => Found::Bad,
    }
}
