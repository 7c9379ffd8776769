//! The values of numerals.

ghost use Rattle.std.specs.Prelude.{◌≡◌, ◌==◌, ◌<◌, false, length, option_map, slice_index, true};
ghost use Rattle.std.specs.Prelude.{IsTrue};
ghost use Rattle.serde_json.specs.Read.{float_of, number_from, number_of};
ghost use Rattle.serde_json.specs.View.{number_view};

use fast_float::Numeral;
use serde_json::Number;

fn has_minus(text: &[u8]) -> bool
    ensures value { result ≡ (slice_index text.now 0 == 45) }
    ensures some { IsTrue result → 0 < length text.now }
{
    !text.is_empty() && text[0] == b'-'
}

fn nearest(negative: bool, numeral: &Numeral<'_>) -> Option<Number>
    ensures { option_map number_view result ≡ float_of negative numeral.now }
{
    Number::from_f64(numeral.to_float::<f64>(negative))
}

fn positive(numeral: &Numeral<'_>) -> Option<Number>
    ensures { option_map number_view result ≡ number_from false numeral.now }
{
    match numeral.to_u64() {
        Some(n) => Number::from_u128(u128::from(n)),
        None => nearest(false, numeral),
    }
}

fn negative(numeral: &Numeral<'_>) -> Option<Number>
    ensures { option_map number_view result ≡ number_from true numeral.now }
{
    if let Some(n) = numeral.to_i64(true) {
        if n < 0 {
            return Number::from_i128(i128::from(n));
        }
    }
    nearest(true, numeral)
}

/// The number that a JSON text writes so: an integer of 64 bits, or the nearest float. None where
/// it is too large for one.
pub(crate) fn number(text: &[u8]) -> Option<Number>
    ensures { option_map number_view result ≡ number_of text.now }
{
    if has_minus(text) {
        return negative(&Numeral::scan(&text[1..]));
    }
    positive(&Numeral::scan(text))
}
