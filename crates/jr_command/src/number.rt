//! Numbers among the words.

ghost use Rattle.std.specs.Prelude.{◌≡◌, ◌≤◌};
ghost use Rattle.jr_command.specs.Command.{number, number_within};

/// The most digits that a number may have.
const MOST_DIGITS: usize = 10;

/// The number that a text of 1 to 10 digits spells, if it is one.
pub fn number_of(text: &[u8]) -> Option<u64>
    ensures { result ≡ number text.now }
{
    if text.is_empty() || text.len() > MOST_DIGITS {
        return None;
    }
    let mut value: u64 = 0;
    for digit in text {
        if !digit.is_ascii_digit() {
            return None;
        }
        value = value * 10 + u64::from(*digit - b'0');
    }
    Some(value)
}

/// The number that a text spells, from `least` to `most`.
pub fn number_from_to(text: &[u8], least: u32, most: u32) -> Option<u32>
    ensures { result ≡ number_within least most text.now }
{
    let value = u32::try_from(number_of(text)?).ok()?;
    if least <= value && value <= most {
        Some(value)
    } else {
        None
    }
}
