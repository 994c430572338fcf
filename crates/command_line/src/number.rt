ghost use Rattle.std.specs.Prelude.{◌≡◌, is_some, true};
ghost use Rattle.std.specs.Char.{is_ascii_digit};
ghost use Rattle.std.specs.List.{list_all};
ghost use Rattle.command_line.specs.Number.{is_number, is_number_in, number_of, value};

/// A number takes at most so many digits.
const MOST_DIGITS: usize = 20;

fn are_digits(bytes: &[u8]) -> bool
    ensures { result ≡ list_all is_ascii_digit bytes.now }
{
    bytes.iter().all(|b| b.is_ascii_digit())
}

/// Whether the text is decimal digits, one to twenty of them.
fn is_number(text: &str) -> bool
    ensures { result ≡ is_number text.now }
{
    !text.is_empty() && text.len() <= MOST_DIGITS && are_digits(text.as_bytes())
}

/// The number that the digits of a text write, if it is below 2^64.
pub fn number_of(text: &str) -> Option<u64>
    ensures { result ≡ number_of text.now }
{
    if !is_number(text) {
        return None;
    }
    match text.parse::<u64>() {
        Ok(n) => Some(n),
        Err(_) => None,
    }
}

/// Whether the text is a number from `least` to `most`.
pub fn is_number_in(text: &str, least: u64, most: u64) -> bool
    ensures { result ≡ is_number_in least most text.now }
{
    match number_of(text) {
        Some(n) => least <= n && n <= most,
        None => false,
    }
}

/// The number of a text that writes one.
pub fn value(text: &str) -> u64
    requires { is_some (number_of text.now) ≡ true }
    ensures { result ≡ value text.now }
{
    match number_of(text) {
        Some(n) => n,
        None => unreachable!(),
    }
}
