//! Decimal digits, and the number that they spell.
ghost use Rattle.std.specs.Prelude.{◌≡◌, ◌≤◌, length};
ghost use Rattle.std.specs.List.{list_all};
ghost use Rattle.mk_base.specs.Numbers as numbers;

/// Whether the byte is a decimal digit.
pub fn is_digit(b: u8) -> bool
    ensures { result ≡ numbers.is_digit b }
{
    b'0' <= b && b <= b'9'
}

/// Whether each byte is a decimal digit.
pub fn are_digits(bytes: &[u8]) -> bool
    ensures { result ≡ list_all numbers.is_digit bytes.now }
{
    bytes.iter().all(|b| is_digit(*b))
}

/// The number that these decimal digits spell, of which there are at most ten.
pub fn number_of(digits: &[u8]) -> u64
    requires { length digits.now ≤ 10 }
    ensures { result ≡ numbers.number_of digits.now }
{
    let mut number: u64 = 0;
    for digit in digits {
        number = number * 10 + u64::from(digit.saturating_sub(b'0'));
    }
    number
}
