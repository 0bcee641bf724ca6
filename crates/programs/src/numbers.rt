// Numbers in words.
ghost use Rattle.std.specs.Prelude.{◌≡◌, Some};
ghost use Rattle.std.specs.List.{list_all};
ghost use Rattle.std.specs.Char.{is_ascii_digit};
ghost use Rattle.programs.specs.Number.{number_of};

fn is_all_digits(text: &str) -> bool
    ensures { result ≡ list_all is_ascii_digit text.now }
{
    text.bytes().all(|byte| byte.is_ascii_digit())
}

/// The number that a word says: 1 to 20 ASCII digits of a value at most the limit; `None` exactly where it says none.
/// Takes no memory.
pub fn number(text: &str, limit: u64) -> Option<u64>
    ensures { result ≡ number_of limit text.now }
{
    if text.len() > 20 || !is_all_digits(text) {
        return None;
    }
    match text.parse::<u64>() {
        Ok(value) if value <= limit => Some(value),
        _ => None,
    }
}
