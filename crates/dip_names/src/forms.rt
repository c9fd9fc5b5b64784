//! The forms of codes and names.
ghost use Rattle.std.specs.Prelude.{◌≡◌};
ghost use Rattle.std.specs.List.{list_all};
ghost use Rattle.std.specs.Char.{is_ascii_lowercase};
ghost use Rattle.dip_names.specs.Forms.{is_printable, is_taken, is_code, is_coast_name, is_full_name, is_power_name};

/// Whether each byte is a small letter.
fn is_lowercase(text: &[u8]) -> bool
    ensures { result ≡ list_all is_ascii_lowercase text.now }
{
    text.iter().all(|b| b.is_ascii_lowercase())
}

/// Whether the byte is printable.
fn is_printable_byte(b: u8) -> bool
    ensures { result ≡ is_printable b }
{
    32 <= b && b <= 126
}

/// Whether each byte is printable.
fn is_printable(text: &[u8]) -> bool
    ensures { result ≡ list_all is_printable text.now }
{
    text.iter().all(|b| is_printable_byte(*b))
}

/// Whether letters and papers use the word for somebody or something that is no power.
fn is_taken(text: &str) -> bool
    ensures { result ≡ is_taken text.now }
{
    text == "master" || text == "all" || text == "nobody" || text == "you"
}

/// Whether a text is a province's code: three letters `a` to `z`.
pub fn is_code(text: &[u8]) -> bool
    ensures { result ≡ is_code text.now }
{
    text.len() == 3 && is_lowercase(text)
}

/// Whether a text is the name of a coast: two letters `a` to `z`.
pub fn is_coast_name(text: &[u8]) -> bool
    ensures { result ≡ is_coast_name text.now }
{
    text.len() == 2 && is_lowercase(text)
}

/// Whether a text is the full name of a province: 1 to 40 bytes of printable ASCII.
pub fn is_full_name(text: &str) -> bool
    ensures { result ≡ is_full_name text.now }
{
    1 <= text.len() && text.len() <= 40 && is_printable(text.as_bytes())
}

/// Whether a text is the name of a power: 1 to 16 letters `a` to `z`, and not `master`, `all`, `nobody` or `you`.
pub fn is_power_name(text: &str) -> bool
    ensures { result ≡ is_power_name text.now }
{
    1 <= text.len() && text.len() <= 16 && is_lowercase(text.as_bytes()) && !is_taken(text)
}
