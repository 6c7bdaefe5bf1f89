//! Numbers of one to ten digits.
ghost use Rattle.std.specs.Prelude.{◌≡◌, ◌≤◌, IfSome};
ghost use Rattle.booth_conf.specs.ValueReader.{number_in, number_within};

/// Returns the number that one to ten digits spell. Leading zeros are allowed.
pub fn number(bytes: &[u8]) -> Option<u64>
    ensures { result ≡ number_in bytes.now }
{
    if bytes.is_empty() || bytes.len() > 10 {
        return None;
    }
    let mut number = 0;
    for byte in bytes {
        if !byte.is_ascii_digit() {
            return None;
        }
        number = number * 10 + u64::from(*byte - b'0');
    }
    Some(number)
}

/// Returns the same number if it is in this range.
pub fn number_within(bytes: &[u8], least: u32, most: u32) -> Option<u32>
    ensures exact { result ≡ number_within least most bytes.now }
    ensures bound { IfSome result (λ n. n ≤ most) }
{
    match number(bytes) {
        Some(n) if u64::from(least) <= n && n <= u64::from(most) => Some(n as u32),
        _ => None,
    }
}
