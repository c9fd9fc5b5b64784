//! How long a head says that its body is.
ghost use Rattle.std.specs.Prelude.{◌≡◌, true};
ghost use Rattle.std.specs.List.{list_all};
ghost use Rattle.std.specs.Char.{is_ascii_digit};
ghost use Rattle.std.specs.Str.Parse.{digits_value};
ghost use Rattle.dip_http_messages.specs.Sizes.{limited, size_of, without_coding};
ghost use Rattle.dip_http_messages.specs.HeadViews.{found_view};

use crate::fields::Found;

/// The most bytes of a body, which are those of a letter: a larger one is refused with 413.
pub const MOST_BODY: usize = 16384;

/// The size of a body by its Content-Length, compared with the limit.
#[derive(Clone, Copy, Debug, PartialEq, Eq)]
pub enum Size {
    /// It has no Content-Length.
    Unsaid,
    /// So many bytes, at most `MOST_BODY`.
    Fits(usize),
    /// More than `MOST_BODY` bytes.
    TooLarge,
}

/// The number that digits write, where it is within the limit. However many digits there are, no number grows past ten times it.
fn size_of_digits(digits: &[u8]) -> Size
    requires { list_all is_ascii_digit digits.now ≡ true }
    ensures { result ≡ limited (digits_value 10 digits.now) }
{
    let mut value = 0;
    'digits: for digit in digits {
        value = value * 10 + usize::from(*digit - b'0');
        if value > MOST_BODY {
            return Size::TooLarge;
        }
    }
    Size::Fits(value)
}

fn are_digits(text: &[u8]) -> bool
    ensures { result ≡ list_all is_ascii_digit text.now }
{
    text.iter().all(|byte| byte.is_ascii_digit())
}

/// The size that Content-Length says; `None` where it is no number or stands twice.
pub fn size_of(length: Found<'_>) -> Option<Size>
    ensures { result ≡ size_of (found_view length.entry) }
{
    match length {
        Found::Never => Some(Size::Unsaid),
        Found::Once(value) if !value.is_empty() && are_digits(value) => Some(size_of_digits(value)),
        _ => None,
    }
}

/// The size, unless one is said and a transfer coding stands beside it.
pub fn without_coding(coding: Found<'_>, size: Option<Size>) -> Option<Size>
    ensures { result ≡ without_coding (found_view coding.entry) size }
{
    match (coding, size) {
        (Found::Once(_) | Found::Often, Some(Size::Fits(_) | Size::TooLarge)) => None,
        _ => size,
    }
}
