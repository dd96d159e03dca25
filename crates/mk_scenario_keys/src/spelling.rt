//! How names, numbers and ports are spelled.
ghost use Rattle.std.specs.Prelude.{◌≡◌, ◌≤◌, nat_le, ◌&&◌, ◌||◌, if◌then◌else◌, Some, None};
ghost use Rattle.std.specs.Fmt.{decimal};
ghost use Rattle.std.specs.List.{list_all};
ghost use Rattle.mk_base.specs.Lists.{same_text};
ghost use Rattle.mk_base.specs.Numbers as numbers;
ghost use Rattle.mk_scenario_keys.specs.Spelling as spelling;

use itoa::Buffer;
use mk_base::{Text, are_digits, is_digit, number_of};

const LONGEST_NAME: usize = 64;

// A letter or `_`, then letters, digits and `_`, at most 64 in all.
pub fn is_name(text: &Text) -> bool
    ensures { result ≡ spelling.is_name text.now }
{
    let bytes = text.bytes();
    starts_well(bytes) && goes_on_well(bytes) && bytes.len() <= LONGEST_NAME
}

fn goes_on_well(bytes: &[u8]) -> bool
    ensures { result ≡ list_all (λ b. spelling.begins_name b || numbers.is_digit b) bytes.now }
{
    bytes.iter().all(|b| begins_name(*b) || is_digit(*b))
}

fn starts_well(bytes: &[u8]) -> bool
    ensures { result ≡ spelling.starts_well bytes.now }
{
    match bytes {
        [first, ..] => begins_name(*first),
        [] => false,
    }
}

fn begins_name(b: u8) -> bool
    ensures { result ≡ spelling.begins_name b }
{
    (b'A' <= b && b <= b'Z') || (b'a' <= b && b <= b'z') || b == b'_'
}

/// The number that the bytes spell by at least one and at most so many decimal digits, nine or fewer; `None` for any
/// other bytes.
pub fn spelled(most: usize, bytes: &[u8]) -> Option<u64>
    requires { most ≤ 9 }
    ensures { result ≡ spelling.spelled most bytes.now }
{
    if 1 <= bytes.len() && bytes.len() <= most && are_digits(bytes) {
        Some(number_of(bytes))
    } else {
        None
    }
}

/// The port of an address on this machine: `127.0.0.1` or `localhost`, a colon, and a port from 1 to 65535 in decimal
/// digits without a leading zero; `None` for any other text.
pub fn port_of(address: &str) -> Option<u16>
    ensures { result ≡ spelling.port_of address.now }
{
    match address.split_once(':') {
        Some((host, port)) => port_at(host, port),
        None => None,
    }
}

fn port_at(host: &str, port: &str) -> Option<u16>
    ensures { result ≡ (if spelling.is_loopback host.now then spelling.port_number port.now
        else None) }
{
    if is_loopback(host) {
        port_number(port)
    } else {
        None
    }
}

fn is_loopback(host: &str) -> bool
    ensures { result ≡ spelling.is_loopback host.now }
{
    host == "127.0.0.1" || host == "localhost"
}

// The port that the text spells without a leading zero.
fn port_number(text: &str) -> Option<u16>
    ensures { result ≡ spelling.port_number text.now }
{
    match spelled(5, text.as_bytes()) {
        Some(n) => port_in_range(n, text),
        None => None,
    }
}

fn port_in_range(n: u64, text: &str) -> Option<u16>
    ensures { result ≡ (if nat_le 1 n && nat_le n 65535 && same_text (decimal n) text.now
        then Some n else None) }
{
    if 1 <= n && n <= 65535 && is_decimal(n, text) {
        Some(n as u16)
    } else {
        None
    }
}

fn is_decimal(n: u64, text: &str) -> bool
    ensures { result ≡ same_text (decimal n) text.now }
{
    let mut buffer = Buffer::new();
    buffer.format(n).as_bytes() == text.as_bytes()
}
