//! The number of a paper, as a path has it.
ghost use Rattle.dip_http_messages.specs.Numbers.{IsNumber};

use itoa::Buffer;

/// The number that a text is in digits, without leading zeros.
pub fn number_of(text: &str) -> Option<u32>
    ensures { IsNumber text.now result }
{
    let number = text.parse::<u32>().ok()?;
    let mut digits = Buffer::new();
    if digits.format(number) == text {
        Some(number)
    } else {
        None
    }
}
