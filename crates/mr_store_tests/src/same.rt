// What the tests assert. An assertion that tells values costs a proof seconds wherever it stands, and a call of this one a fraction.

use std::fmt::Debug;
use std::process::Abort;

/// What is found there is what is wanted.
pub(crate) fn same<T: Debug + PartialEq, A: Debug + Drop>(
    rt: &impl Abort,
    found: &T,
    wanted: &T,
    at: A,
) {
    assert_eq!(rt; found, wanted, "at {at:?}");
}
