// What the tests assert. An assertion that tells values costs a proof seconds wherever it stands, and a call of one of these a fraction.

use mr_base::Refusal;
use mr_http::WebFault;
use std::fmt::Debug;
use std::process::Abort;

/// What is found there is what is wanted.
pub(crate) fn same<T: Debug + PartialEq, A: Debug + Drop>(
    rt: &impl Abort,
    found: &T,
    wanted: &T,
    at: A,
) {
    assert_eq!(rt; found, wanted, "at {at:?}");
}

/// There are bytes, and they are these.
pub(crate) fn same_bytes(rt: &impl Abort, found: &Result<Vec<u8>, WebFault>, wanted: &[u8]) {
    match found {
        Ok(found) => same(rt, &found.as_slice(), &wanted, "these bytes"),
        Err(fault) => same(rt, &Some(*fault), &None, "these bytes"),
    }
}

/// There is a text, and it is this one.
pub(crate) fn same_text(rt: &impl Abort, text: &Result<Vec<u8>, Refusal>, want: &str) {
    match text {
        Ok(text) => same(rt, &text.as_slice(), &want.as_bytes(), want),
        Err(refusal) => same(rt, &Some(*refusal), &None, want),
    }
}
