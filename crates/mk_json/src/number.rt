//! The tree of a number's text.
ghost use Rattle.std.specs.Prelude.{◌≡◌, ◌==◌, ◌<◌, length, option_map, slice_index, IsTrue, true, false};
ghost use Rattle.serde_json.specs.Read as meant;
ghost use Rattle.mk_json.specs.Parsed.{tree_of_number};

use fast_float::Numeral;
use mk_base::Json;

// Whole where it is an integer of 64 bits, with a sign or without, and not `-0`; no tree where it
// is too large for a float.
#[inline(always)]
pub fn number(text: &str) -> Option<Json>
    ensures { result ≡ option_map tree_of_number (meant.number_of text.now) }
{
    let bytes = text.as_bytes();
    if has_minus(bytes) {
        negative(&Numeral::scan(&bytes[1..]))
    } else {
        unsigned(&Numeral::scan(bytes))
    }
}

#[inline(always)]
fn has_minus(bytes: &[u8]) -> bool
    ensures value { result ≡ (slice_index bytes.now 0 == 45) }
    ensures len { IsTrue result → 0 < length bytes.now }
{
    !bytes.is_empty() && bytes[0] == b'-'
}

#[inline(always)]
fn unsigned(numeral: &Numeral<'_>) -> Option<Json>
    ensures { result ≡ option_map tree_of_number (meant.number_from false numeral.now) }
{
    match numeral.to_u64() {
        Some(n) => Some(Json::Whole(n as i128)),
        None => odd(false, numeral),
    }
}

#[inline(always)]
fn negative(numeral: &Numeral<'_>) -> Option<Json>
    ensures { result ≡ option_map tree_of_number (meant.number_from true numeral.now) }
{
    if let Some(n) = numeral.to_i64(true) {
        if n < 0 {
            return Some(Json::Whole(n as i128));
        }
    }
    odd(true, numeral)
}

#[inline(always)]
fn odd(below_zero: bool, numeral: &Numeral<'_>) -> Option<Json>
    ensures { result ≡ option_map tree_of_number (meant.float_of below_zero numeral.now) }
{
    if numeral.to_float::<f64>(below_zero).is_finite() {
        Some(Json::Odd)
    } else {
        None
    }
}
