ghost use Rattle.std.specs.Prelude.{◌≡◌, ◌<◌, ◌≤◌, ◌^◌, ℕ, decimal, Some, IsTrue, IfSome, SomeIff};
ghost use Rattle.std.specs.List.{list_all};
ghost use Rattle.std.specs.Char.{is_ascii_digit};
ghost use Rattle.mr_model.specs.Texts.{number_in};
ghost use Rattle.mr_base.specs.Readings.{number_from_to, number_by_digits, is_number};

/// The number that the text writes in decimal without a sign or leading zeros, if it is from `low` to `high`.
pub fn read_number(text: &str, low: u64, high: u64) -> Option<u64>
    ensures value { result ≡ number_from_to low high text.now }
    ensures written { IfSome result (λ n. text.now ≡ decimal n) }
    ensures in_range { IfSome result (λ n. (low ≤ n) × (n ≤ high)) }
    ensures read { (n : ℕ) → low ≤ n → n ≤ high → text.now ≡ decimal n → result ≡ Some n }
{
    number_within(text, low, high)
}

fn number_within(text: &str, low: u64, high: u64) -> Option<u64>
    ensures { result ≡ number_by_digits low high text.now }
{
    if !is_number_text(text.as_bytes()) {
        return None;
    }
    match number_value(text) {
        Some(n) if n >= low && n <= high => Some(n),
        _ => None,
    }
}

fn number_value(text: &str) -> Option<u64>
    requires { IsTrue (is_number text.now) }
    ensures { SomeIff result (number_in text.now < 2 ^ 64) (number_in text.now) }
{
    text.parse::<u64>().ok()
}

fn is_number_text(text: &[u8]) -> bool
    ensures { result ≡ is_number text.now }
{
    are_digits(text) && text.len() >= 1 && (text[0] != b'0' || text.len() == 1)
}

fn are_digits(text: &[u8]) -> bool
    ensures { result ≡ list_all is_ascii_digit text.now }
{
    text.iter().all(|byte| byte.is_ascii_digit())
}
