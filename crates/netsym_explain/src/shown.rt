//! Values of a document in words.

use std::alloc::{AllocError, Global};
use toml::Value;

/// The longest text that is shown whole, in bytes.
const SHOWN: usize = 60;

/// A number with the name of what it counts.
pub fn counted(alloc: Global, count: usize, one: &str) -> Result<String, AllocError> {
    if count == 1 {
        return format!(in alloc; "1 {one}");
    }
    format!(in alloc; "{count} {one}s")
}

/// What stands at a key.
pub fn shown(alloc: Global, value: &Value) -> Result<String, AllocError> {
    if let Some(number) = value.as_integer() {
        return format!(in alloc; "{number}");
    }
    if let Some(text) = value.as_str() {
        let length = text.len();
        if length <= SHOWN {
            return format!(in alloc; "the text {text:?}");
        }
        return format!(in alloc; "a text of {length} bytes");
    }
    if let Some(array) = value.as_array() {
        let elements = counted(alloc, array.len(), "element")?;
        return format!(in alloc; "an array of {elements}");
    }
    let kind = value.type_str();
    format!(in alloc; "a {kind}")
}
