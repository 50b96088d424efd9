// How values are written.

use std::alloc::{AllocError, Global};
use std::fmt::Display;

/// Whether the text is how the value is written.
pub(crate) fn is_shown<T: Display>(
    alloc: Global,
    value: &T,
    text: &str,
) -> Result<bool, AllocError> {
    let shown = format!(in alloc; "{value}")?;
    Ok(shown.as_str() == text)
}
