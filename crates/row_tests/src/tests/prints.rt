//! Printed values.

use std::alloc::Global;
use std::fmt::Display;

/// Whether a value is printed as this text.
pub fn prints<T: Display>(alloc: Global, value: &T, text: &str) -> bool {
    match value.to_string(alloc) {
        Ok(printed) => printed.as_str() == text,
        Err(_) => false,
    }
}

/// Whether each of these values is printed as the text beside it.
pub fn are_printed<T: Display>(alloc: Global, rows: &[(T, &str)]) -> bool {
    for (value, text) in rows {
        if !prints(alloc, value, text) {
            return false;
        }
    }
    true
}
