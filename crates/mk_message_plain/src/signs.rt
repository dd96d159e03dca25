//! What a plain text begins with: a byte, a whole number, a name in quotes.
ghost use Rattle.std.specs.Prelude.{◌≡◌, ◌<◌, ◌≤◌, ◌+◌, ◌^◌, ◌++◌, ◌∷◌, [], true, length, take, IfSome, decimal};
ghost use Rattle.std.specs.Fmt.{signed_decimal};
ghost use Rattle.std.specs.List.{list_all};
ghost use Rattle.std.specs.Str.{IsUtf8};
ghost use Rattle.mk_base.specs.Texts.{quoted};
ghost use Rattle.mk_base.specs.Trees.{in_range};
ghost use Rattle.mk_message_plain.specs.inner.Signs.{is_free};

// A number with one digit more isn't plain.
const MOST: u64 = 100_000_000_000_000_000;

/// What stands behind this byte, where the text begins with it.
#[inline(always)]
pub fn behind(text: &[u8], byte: u8) -> Option<&[u8]>
    ensures { IfSome result (λ rest. text.now ≡ byte ∷ rest.now) }
{
    match text {
        [first, rest @ ..] if *first == byte => Some(rest),
        _ => None,
    }
}

/// What stands before this byte, where the text ends with it.
#[inline(always)]
pub fn before(text: &[u8], byte: u8) -> Option<&[u8]>
    ensures { IfSome result (λ start. text.now ≡ start.now ++ byte ∷ []) }
{
    match text {
        [start @ .., last] if *last == byte => Some(start),
        _ => None,
    }
}

/// A whole number from 0 to 10^18 - 1, and what stands behind its digits.
#[inline(always)]
pub fn unsigned(text: &[u8]) -> Option<(u64, &[u8])>
    ensures text { IfSome result (λ p. text.now ≡ decimal p.0 ++ p.1.now) }
    ensures small { IfSome result (λ p. p.0 < 10 ^ 18) }
{
    let (first, rest) = next_digit(text)?;
    if first == 0 {
        return Some((0, rest));
    }
    more_digits(first, rest)
}

// The number that begins with this digit, and what stands behind its digits.
fn more_digits(first: u64, text: &[u8]) -> Option<(u64, &[u8])>
    requires above { 0 < first }
    requires below { first < 10 }
    ensures text { IfSome result
        (λ p. decimal first ++ text.now ≡ decimal p.0 ++ p.1.now) }
    ensures small { IfSome result (λ p. p.0 < 10 ^ 18) }
{
    let mut number = first;
    let mut rest = text;
    while let Some((digit, more)) = next_digit(rest) {
        if number >= MOST {
            return None;
        }
        number = number * 10 + digit;
        rest = more;
    }
    Some((number, rest))
}

// The digit that a text begins with, as a number, and what stands behind it.
#[inline(always)]
fn next_digit(text: &[u8]) -> Option<(u64, &[u8])>
    ensures text { IfSome result (λ p. text.now ≡ (48 + p.0) ∷ p.1.now) }
    ensures below { IfSome result (λ p. p.0 < 10) }
{
    match text {
        [byte, rest @ ..] if *byte >= b'0' && *byte <= b'9' => {
            Some((u64::from(*byte - b'0'), rest))
        }
        _ => None,
    }
}

/// A whole number from -(10^18 - 1) to 10^18 - 1, and what stands behind its digits.
#[inline(always)]
pub fn signed(text: &[u8]) -> Option<(i128, &[u8])>
    ensures text { IfSome result (λ p. text.now ≡ signed_decimal p.0 ++ p.1.now) }
    ensures in_range { IfSome result (λ p. in_range p.0 ≡ true) }
{
    match behind(text, b'-') {
        Some(digits) => below_zero(digits),
        None => {
            let (number, rest) = unsigned(text)?;
            Some((number as i128, rest))
        }
    }
}

// The number behind a minus sign, which isn't 0.
fn below_zero(text: &[u8]) -> Option<(i128, &[u8])>
    ensures text { IfSome result (λ p. 45 ∷ text.now ≡ signed_decimal p.0 ++ p.1.now) }
    ensures in_range { IfSome result (λ p. in_range p.0 ≡ true) }
{
    let (number, rest) = unsigned(text)?;
    if number == 0 {
        return None;
    }
    Some((-(number as i128), rest))
}

/// A name in quotes in which nothing needs an escape, and what stands behind it.
#[inline(always)]
pub fn name(text: &[u8]) -> Option<(&[u8], &[u8])>
    ensures text { IfSome result (λ p. text.now ≡ quoted p.0.now ++ p.1.now) }
    ensures utf8 { IfSome result (λ p. IsUtf8 p.0.now) }
{
    let inner = behind(text, b'"')?;
    let count = free_bytes(inner);
    let rest = behind(&inner[count..], b'"')?;
    Some((&inner[..count], rest))
}

// How many bytes stand before the first one that needs an escape or more than one byte.
fn free_bytes(text: &[u8]) -> usize
    ensures within { result ≤ length text.now }
    ensures free { list_all is_free (take result text.now) ≡ true }
{
    let mut count = 0;
    while count < text.len() && is_free(text[count]) {
        count += 1;
    }
    count
}

// Whether the byte is a letter of ASCII that stands as it is within quotes.
#[inline(always)]
fn is_free(byte: u8) -> bool
    ensures { result ≡ is_free byte }
{
    byte >= 32 && byte < 127 && byte != b'"' && byte != b'\\'
}
