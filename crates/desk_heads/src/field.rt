//! The fields of a head.

ghost use Rattle.std.specs.Prelude.{◌≡◌, length, map, All};
ghost use Rattle.httparse.specs.Spans.{IsHeaderWithin, header_bytes};
ghost use Rattle.desk_heads.specs.Fields.{is_named, occurrence_of, values_among};
ghost use Rattle.desk_heads.specs.View.{occurrence_seen};

use httparse::spans::HeaderSpan;

/// How often a field occurs in a head, and its value where it occurs once.
#[derive(Clone, Copy, Debug, PartialEq, Eq)]
pub(crate) enum Field<'a> {
    Absent,
    Once(&'a [u8]),
    Repeated,
}

/// Whether the header of the head is of that name.
fn is_named(front: &[u8], header: HeaderSpan, name: &[u8]) -> bool
    requires { IsHeaderWithin (length front.now) header }
    ensures { result ≡ is_named name.now (header_bytes front.now header) }
{
    header.name.of(front).eq_ignore_ascii_case(name)
}

/// The fields of that name among the headers of the head.
pub(crate) fn find_field<'a>(front: &'a [u8], headers: &[HeaderSpan], name: &[u8]) -> Field<'a>
    requires { All (IsHeaderWithin (length front.now)) headers.now }
    ensures { occurrence_seen result
        ≡ occurrence_of (values_among name.now (map (header_bytes front.now) headers.now)) }
{
    let mut field = Field::Absent;
    for header in headers {
        if is_named(front, *header, name) {
            field = match field {
                Field::Absent => Field::Once(header.value.of(front)),
                Field::Once(_) | Field::Repeated => Field::Repeated,
            };
        }
    }
    field
}
