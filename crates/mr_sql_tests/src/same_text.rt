// What the tests assert. An assertion that tells values costs a proof seconds wherever it stands, and a call of one of these a fraction.

use mr_base::Refusal;
use std::process::Abort;

/// Whether there is a text, and it is this one.
pub(crate) fn is_text(text: &Result<Vec<u8>, Refusal>, want: &[u8]) -> bool {
    matches!(text, Ok(text) if text.as_slice() == want)
}

/// There is a text, and it is this one.
pub(crate) fn same_text(rt: &impl Abort, text: &Result<Vec<u8>, Refusal>, want: &str) {
    match text {
        Ok(text) => {
            assert_eq!(rt; text.as_slice(), want.as_bytes(), "where {want} is wanted");
        }
        Err(refusal) => {
            assert!(rt; false, "{refusal:?} where {want} is wanted");
        }
    }
}

/// Both are texts, and one text.
pub(crate) fn same_texts(
    rt: &impl Abort,
    one: &Result<Vec<u8>, Refusal>,
    other: &Result<Vec<u8>, Refusal>,
) {
    let (Ok(one), Ok(other)) = (one, other) else {
        assert!(rt; false, "a refusal in place of a text");
        return;
    };
    assert_eq!(rt; one.as_slice(), other.as_slice());
}

/// The count is this one.
pub(crate) fn same_count(rt: &impl Abort, found: u64, wanted: u64, at: usize) {
    assert_eq!(rt; found, wanted, "at {at}");
}

/// It is so.
pub(crate) fn holds(rt: &impl Abort, is_so: bool, wanted: &str) {
    assert!(rt; is_so, "where {wanted} is wanted");
}
