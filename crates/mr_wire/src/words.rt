ghost use Rattle.std.specs.Prelude.{◌≡◌, ◌==◌, ◌<◌, ◌^◌, length, option_map, position, IfSome};
ghost use Rattle.std.specs.Str.{IsUtf8};
ghost use Rattle.mr_wire.specs.Words.{cut};

/// The line up to the first LF, and what stands behind that; none if no LF is left.
pub(crate) fn first_line(bytes: &[u8]) -> Option<(&[u8], &[u8])>
    ensures value { option_map (λ x. (x.0.now, x.1.now)) result ≡ cut 10 bytes.now }
    ensures shorter { IfSome result (λ x. length x.1.now < length bytes.now) }
    ensures bounded { length bytes.now < 2 ^ 64 }
{
    let end = place_of(bytes, b'\n')?;
    Some((&bytes[..end], &bytes[end + 1..]))
}

fn place_of(bytes: &[u8], sought: u8) -> Option<usize>
    ensures { result ≡ position (λ b. b == sought) bytes.now }
{
    bytes.iter().position(|byte| *byte == sought)
}

/// The word up to the first space, and what stands behind that; none if no space is left.
pub(crate) fn first_word(text: &str) -> Option<(&str, &str)>
    ensures value { option_map (λ x. (x.0.now, x.1.now)) result ≡ cut 32 text.now }
    ensures utf8 { IfSome result (λ x. IsUtf8 x.0.now × IsUtf8 x.1.now) }
{
    text.split_once(' ')
}

/// The same as `first_line`, of a text.
pub(crate) fn first_line_of_text(text: &str) -> Option<(&str, &str)>
    ensures value { option_map (λ x. (x.0.now, x.1.now)) result ≡ cut 10 text.now }
    ensures utf8 { IfSome result (λ x. IsUtf8 x.0.now × IsUtf8 x.1.now) }
    ensures shorter { IfSome result (λ x. length x.1.now < length text.now) }
{
    text.split_once('\n')
}
