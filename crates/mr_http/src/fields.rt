ghost use Rattle.std.specs.Prelude.{◌≡◌, [], ◌∷◌, IsTrue};
ghost use Rattle.std.specs.List.{list_any, list_all};
ghost use Rattle.mr_model.specs.Texts.{within, number_in};
ghost use Rattle.mr_model.specs.Http as model;
ghost use Rattle.mr_http.specs.HeaderFields.{header_field, header_fields};
ghost use Rattle.mr_http.specs.Lengths.{LengthsAre};

use httparse::Header;

/// How many bytes the body behind a head with these fields has; none if the fields are at fault: with a transfer encoding,
/// or with a stated length that isn't one alone of 1 to 10 digits. If no length is needed, none stated is 0, and no other
/// than 0 may be stated.
pub fn body_length(needs_length: bool, fields: &[Header<'_>]) -> Option<u64>
    ensures { result ≡ model.body_length needs_length (header_fields fields.now) }
{
    if has_field(fields, "Transfer-Encoding") {
        return None;
    }
    match stated_lengths(fields) {
        Lengths::Absent if needs_length => None,
        Lengths::Absent => Some(0),
        Lengths::One(value) => only_length(needs_length, value),
        Lengths::Many => None,
    }
}

// The values of the fields that state a length.
#[derive(Clone, Copy)]
enum Lengths<'b> {
    Absent,
    One(&'b [u8]),
    Many,
}

fn is_named(field: &Header<'_>, name: &str) -> bool
    ensures { result ≡ model.has_field_name name.now (header_field field.now) }
{
    name.eq_ignore_ascii_case(field.name)
}

fn has_field(fields: &[Header<'_>], name: &str) -> bool
    ensures { result ≡ list_any (model.has_field_name name.now) (header_fields fields.now) }
{
    match fields {
        [] => false,
        [first, rest @ ..] => is_named(first, name) || has_field(rest, name),
    }
}

fn stated_lengths<'b>(fields: &[Header<'b>]) -> Lengths<'b>
    ensures { LengthsAre result (model.stated_lengths (header_fields fields.now)) }
{
    match fields {
        [] => Lengths::Absent,
        [first, rest @ ..] => {
            let later = stated_lengths(rest);
            if !is_named(first, "Content-Length") {
                return later;
            }
            match later {
                Lengths::Absent => Lengths::One(first.value),
                _ => Lengths::Many,
            }
        }
    }
}

fn only_length(needs_length: bool, value: &[u8]) -> Option<u64>
    ensures { result ≡ model.only_length needs_length (value.now ∷ []) }
{
    if !is_length_value(value) {
        return None;
    }
    let length = number(value);
    if needs_length || length == 0 {
        Some(length)
    } else {
        None
    }
}

fn is_length_value(value: &[u8]) -> bool
    ensures { result ≡ model.is_length_value value.now }
{
    value.len() >= 1 && value.len() <= 10 && all_digits(value)
}

fn all_digits(value: &[u8]) -> bool
    ensures { result ≡ list_all (λ c. within 48 57 c) value.now }
{
    match value {
        [] => true,
        [first, rest @ ..] => *first >= b'0' && *first <= b'9' && all_digits(rest),
    }
}

// The number that at most ten digits write.
fn number(digits: &[u8]) -> u64
    requires { IsTrue (model.is_length_value digits.now) }
    ensures { result ≡ number_in digits.now }
{
    let mut number = 0u64;
    for digit in digits {
        number = number * 10 + u64::from(*digit - b'0');
    }
    number
}
