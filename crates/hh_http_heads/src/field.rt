//! The value of a header that may occur only once.

ghost use Rattle.std.specs.Prelude.{◌≡◌, ℕ, List, [], ◌∷◌, ◌++◌, All, length, map};
ghost use Rattle.std.specs.Str.{str_eq_ignore_ascii_case};
ghost use Rattle.httparse.specs.Spans.{IsHeaderWithin, header_bytes};
ghost use Rattle.hh_http_heads.specs.steps.Fields.{IsField};
ghost use Rattle.hh_http_heads.specs.Headings.{values_in};

use httparse::spans::HeaderSpan;

/// What headers of a name there are.
#[derive(Clone, Copy)]
pub(crate) enum Field<'b> {
    /// No header has the name.
    Absent,
    /// One header has it, with this value.
    Once(&'b [u8]),
    /// Several headers have it.
    Repeated,
}

/// What headers of a name there are, among headers in these bytes.
pub(crate) fn find<'b>(bytes: &'b [u8], headers: &[HeaderSpan], name: &str) -> Field<'b>
    requires { All (IsHeaderWithin (length bytes.now)) headers.now }
    ensures { IsField (values_in name.now (map (header_bytes bytes.now) headers.now)) result }
{
    let mut field = Field::Absent;
    for header in headers {
        field = with_header(field, bytes, header, name);
    }
    field
}

/// A field with one more header, if that has the name.
fn with_header<'b>(field: Field<'b>, bytes: &'b [u8], header: &HeaderSpan, name: &str) -> Field<'b>
    requires { IsHeaderWithin (length bytes.now) header.now }
    ensures { (values : List (List ℕ)) → IsField values field.entry
        → IsField (values ++ values_in name.now (header_bytes bytes.entry.now header.now ∷ []))
        result }
{
    if has_name(header.name.of(bytes), name) {
        field.with_value(header.value.of(bytes))
    } else {
        field
    }
}

/// Whether a text is a name, ignoring case.
fn has_name(text: &[u8], name: &str) -> bool
    ensures { result ≡ str_eq_ignore_ascii_case text.now name.now }
{
    text.eq_ignore_ascii_case(name.as_bytes())
}

impl<'b> Field<'b> {
    /// The field with one more value.
    fn with_value(self, value: &'b [u8]) -> Field<'b>
        ensures { (values : List (List ℕ)) → IsField values self.entry
            → IsField (values ++ value.entry.now ∷ []) result }
    {
        match self {
            Field::Absent => Field::Once(value),
            Field::Once(_) | Field::Repeated => Field::Repeated,
        }
    }
}
