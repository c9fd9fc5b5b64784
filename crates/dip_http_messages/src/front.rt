//! What the first bytes of a connection are.
ghost use Rattle.std.specs.Prelude.{◌≡◌, ◌≤◌, All, IfSome, IsAscii, length, map, option_map};
ghost use Rattle.httparse.specs.Spans.{IsHeaderWithin, IsRequestOf, IsRequestWithin, header_bytes};
ghost use Rattle.dip_http_messages.specs.Fronts.{IsFront, ask_view, is_decided};
ghost use Rattle.dip_http_messages.specs.Heads.{ask_in};

use crate::fields::{find, has_host};
use crate::size::{Size, size_of, without_coding};
use crate::target::{is_target, path_of};
use httparse::Status;
use httparse::spans::{EMPTY_HEADER_SPAN, HeaderSpan, RequestSpans, parse_request};

/// The most bytes of a head, with its first line and the empty line at its end.
pub const MOST_HEAD: usize = 8192;
/// The most fields of a head: with more of them the bytes are no head.
pub const MOST_FIELDS: usize = 32;

/// What a head asks for.
#[derive(Clone, Copy)]
pub struct Asked<'b> {
    /// The target without its query; ASCII, with `/` first.
    pub path: &'b str,
    /// How long its body is.
    pub size: Size,
}

/// A head and what it asks for.
#[derive(Clone, Copy)]
pub struct RequestFront<'b> {
    /// The method, as it was sent.
    pub method: &'b [u8],
    /// `None` where its fields or its target are refused.
    pub asked: Option<Asked<'b>>,
    /// How many bytes the head has; after it the body begins.
    pub size: usize,
}

/// Whether the bytes that were read so far begin with a head.
#[derive(Clone, Copy)]
pub enum Front<'b> {
    /// No head yet; one may come with more bytes.
    More,
    /// No head, whatever follows.
    NoHead,
    /// A whole head, of at most `MOST_HEAD` bytes and `MOST_FIELDS` fields; a body may follow.
    Head(RequestFront<'b>),
}

impl Front<'_> {
    /// Whether it stays so whatever follows.
    pub fn is_decided(self) -> bool
        ensures { result ≡ is_decided self.entry }
    {
        match self {
            Front::More => false,
            Front::NoHead | Front::Head(_) => true,
        }
    }
}

/// What the parts of a head ask for; `None` where they are refused.
fn ask_of<'b>(buf: &[u8], minor: u8, target: &'b [u8], headers: &[HeaderSpan]) -> Option<Asked<'b>>
    requires { All (IsHeaderWithin (length buf.now)) headers.now }
    ensures asked { option_map ask_view result
        ≡ ask_in minor target.entry.now (map (header_bytes buf.now) headers.now) }
    ensures ascii { IfSome result (λ a. IsAscii a.path.now) }
{
    if has_host(minor, find(buf, headers, b"host")) && is_target(target) {
        let length = size_of(find(buf, headers, b"content-length"));
        let size = without_coding(find(buf, headers, b"transfer-encoding"), length)?;
        let path = path_of(target);
        Some(Asked { path, size })
    } else {
        None
    }
}

/// The parts of a head that was found.
fn parts_of<'b>(buf: &'b [u8], headers: &[HeaderSpan], head: &RequestSpans) -> RequestFront<'b>
    requires within { IsRequestWithin buf.now headers.now head.now }
    requires found { IsRequestOf buf.now headers.now head.now }
    requires size { head.now.len ≤ MOST_HEAD }
    requires room { length headers.now ≤ MOST_FIELDS }
    ensures { IsFront buf.entry.now (Front.Head result) }
{
    RequestFront {
        method: head.method.of(buf),
        asked: ask_of(
            buf,
            head.version,
            head.path.of(buf),
            &headers[..head.headers],
        ),
        size: head.len,
    }
}

/// Looks for a head at the beginning of these bytes. It is decided once it is found, once the bytes
/// can't become one, and at `MOST_HEAD` bytes without one.
pub fn front_of(buf: &[u8]) -> Front<'_>
    ensures { IsFront buf.entry.now result }
{
    let mut headers = [EMPTY_HEADER_SPAN; MOST_FIELDS];
    match parse_request(buf, &mut headers) {
        Ok(Status::Complete(head)) => {
            if head.len <= MOST_HEAD {
                Front::Head(parts_of(buf, &headers, &head))
            } else {
                Front::NoHead
            }
        }
        Ok(Status::Partial) => {
            if buf.len() < MOST_HEAD {
                Front::More
            } else {
                Front::NoHead
            }
        }
        Err(_) => Front::NoHead,
    }
}
