//! The lines of the log. They take no memory, since they are written when it has run out.

ghost use Rattle.std.specs.Prelude.{◌≡◌, ◌≤◌, length};
ghost use Rattle.desk_log.specs.Lines.{end_line, failed_line, failure_name, kind_name, line_front, success_line, success_name};

use crate::note::{OfficeFailure, RequestKind};
use arrayvec::ArrayString;
use itoa::Buffer;

/// A line, which is shorter than this.
pub(crate) type Line = ArrayString<128>;

fn failure_name(failure: OfficeFailure) -> &'static str
    ensures name { result.now ≡ failure_name failure }
    ensures short { length result.now ≤ 6 }
{
    match failure {
        OfficeFailure::Memory => "Memory",
        OfficeFailure::Store => "Store",
    }
}

fn kind_name(kind: RequestKind) -> &'static str
    ensures name { result.now ≡ kind_name kind }
    ensures short { length result.now ≤ 9 }
{
    match kind {
        RequestKind::Change => "a change",
        RequestKind::Reading => "a reading",
    }
}

fn success_name(kind: RequestKind) -> &'static str
    ensures name { result.now ≡ success_name kind }
    ensures short { length result.now ≤ 27 }
{
    match kind {
        RequestKind::Change => " was accepted again, after ",
        RequestKind::Reading => " succeeded again, after ",
    }
}

/// The beginning of a line, which names the connection and the kind of its request.
fn line_front(number: u32, kind: RequestKind) -> Line
    ensures text { result.bytes ≡ line_front number kind }
    ensures short { length result.bytes ≤ 39 }
{
    let mut digits = Buffer::new();
    let mut line = Line::new();
    line.push_str("depot: connection ");
    line.push_str(digits.format(number));
    line.push_str(": ");
    line.push_str(kind_name(kind));
    line
}

/// The line of the failure that makes it this count in a row.
pub(crate) fn failed_line(
    number: u32,
    kind: RequestKind,
    failure: OfficeFailure,
    count: u32,
) -> Line
    ensures { result.bytes ≡ failed_line number kind failure count }
{
    let mut digits = Buffer::new();
    let mut line = line_front(number, kind);
    line.push_str(" was answered ");
    line.push_str(failure_name(failure));
    line.push_str(", ");
    line.push_str(digits.format(count));
    line.push_str(" in a row\n");
    line
}

/// The line of a success after this count of failures in a row, the last of which is named.
pub(crate) fn success_line(
    number: u32,
    kind: RequestKind,
    failure: OfficeFailure,
    count: u32,
) -> Line
    ensures { result.bytes ≡ success_line number kind failure count }
{
    let mut digits = Buffer::new();
    let mut line = line_front(number, kind);
    line.push_str(success_name(kind));
    line.push_str(digits.format(count));
    line.push_str(" in a row, the last answered ");
    line.push_str(failure_name(failure));
    line.push_str("\n");
    line
}

/// The line of an end that was asked for.
pub(crate) fn end_line(count: u32) -> Line
    ensures { result.bytes ≡ end_line count }
{
    let mut digits = Buffer::new();
    let mut line = Line::new();
    line.push_str("depot: serving ended after the connections that were asked for: ");
    line.push_str(digits.format(count));
    line.push_str("\n");
    line
}
