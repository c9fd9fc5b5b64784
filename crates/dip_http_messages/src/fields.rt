//! The fields of one name, in a head's list of fields.
ghost use Rattle.std.specs.Prelude.{◌≡◌, All, length, map};
ghost use Rattle.std.specs.Str.{str_eq_ignore_ascii_case};
ghost use Rattle.httparse.specs.Spans.{IsHeaderWithin, header_bytes};
ghost use Rattle.dip_http_messages.specs.Fields.{field_of, found_more, has_host};
ghost use Rattle.dip_http_messages.specs.HeadViews.{found_view};

use httparse::spans::HeaderSpan;

/// The value of the fields of one name.
#[derive(Clone, Copy)]
pub enum Found<'b> {
    /// There is no such field.
    Never,
    /// There is one, with this value.
    Once(&'b [u8]),
    /// There are two or more.
    Often,
}

/// Whether two names are the same but for the case of their letters.
fn is_named(field: &[u8], name: &[u8]) -> bool
    ensures { result ≡ str_eq_ignore_ascii_case field.now name.now }
{
    field.eq_ignore_ascii_case(name)
}

/// Counts one field more of that name: from the second one on they are `Often`.
fn one_more<'b>(found: Found<'b>, value: &'b [u8]) -> Found<'b>
    ensures { found_view result ≡ found_more (found_view found.entry) value.entry.now }
{
    match found {
        Found::Never => Found::Once(value),
        _ => Found::Often,
    }
}

/// The field of this name, whose case is free.
pub fn find<'b>(buf: &'b [u8], headers: &[HeaderSpan], name: &[u8]) -> Found<'b>
    requires { All (IsHeaderWithin (length buf.now)) headers.now }
    ensures { found_view result
        ≡ field_of name.now (map (header_bytes buf.entry.now) headers.now) }
{
    let mut found = Found::Never;
    'fields: for header in headers {
        if is_named(header.name.of(buf), name) {
            found = one_more(found, header.value.of(buf));
        }
    }
    found
}

/// Whether Host stands as its version asks: HTTP/1.1 wants exactly one, HTTP/1.0 doesn't care.
pub fn has_host(minor: u8, host: Found<'_>) -> bool
    ensures { result ≡ has_host minor (found_view host.entry) }
{
    match host {
        Found::Once(_) => true,
        _ => minor == 0,
    }
}
