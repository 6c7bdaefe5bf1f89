//! Environment variables.

use arrayvec::ArrayString;
use std::env::Env;
use std::str;

/// The most bytes of a variable's value.
const VALUE_BYTES: usize = 128;

/// The value of a variable.
pub(crate) type Value = ArrayString<VALUE_BYTES>;

/// Returns the value of a variable without an allocation. Returns `None` if the variable is not set, if its value is
/// longer than 128 bytes, or if it is not UTF-8.
pub(crate) fn variable(rt: &HostRuntime, name: &str) -> Option<Value> {
    let mut room = [0u8; VALUE_BYTES];
    let Ok(count) = rt.var(name, &mut room) else {
        return None;
    };
    match str::from_utf8(&room[..count]) {
        Ok(text) => Value::from(text).ok(),
        Err(_) => None,
    }
}
