//! Numbers that are within range.
ghost use Rattle.std.specs.Prelude.{◌≡◌, ◌==◌, ◌<◌, ◌≤◌, IsTrue, length, is_some, slice_index, true, false};
ghost use Rattle.std.specs.Char.{is_ascii_digit};
ghost use Rattle.std.specs.List.{list_all};
ghost use Rattle.serde_json.specs.Read.{number_from, number_of};

use fast_float::Numeral;

/// So many digits are always within 64 bits.
const FEW: usize = 18;

/// Whether the number of a token is one of 64 bits, or a float that is finite.
#[tactic(auto, unfolding(serde_json::specs::Read::number_of))]
pub(crate) fn is_in_range(text: &str) -> bool
    ensures { result ≡ is_some (number_of text.now) }
{
    let bytes = text.as_bytes();
    if is_few_digits(bytes) {
        return true;
    }
    if has_minus(bytes) {
        is_negative(&Numeral::scan(&bytes[1..]))
    } else {
        is_unsigned(&Numeral::scan(bytes))
    }
}

// Whether a text is of a few digits alone, as most numbers are.
fn is_few_digits(bytes: &[u8]) -> bool
    ensures { result ≡ true → (0 < length bytes.now) × (length bytes.now ≤ 18)
        × (list_all is_ascii_digit bytes.now ≡ true) }
{
    if bytes.is_empty() || bytes.len() > FEW {
        return false;
    }
    is_digits(bytes)
}

fn is_digits(bytes: &[u8]) -> bool
    ensures { result ≡ list_all is_ascii_digit bytes.now }
{
    bytes.iter().all(|byte| byte.is_ascii_digit())
}

fn has_minus(bytes: &[u8]) -> bool
    ensures value { result ≡ (slice_index bytes.now 0 == 45) }
    ensures len { IsTrue result → 0 < length bytes.now }
{
    !bytes.is_empty() && bytes[0] == b'-'
}

fn is_unsigned(numeral: &Numeral<'_>) -> bool
    ensures { result ≡ is_some (number_from false numeral.now) }
{
    match numeral.to_u64() {
        Some(_) => true,
        None => numeral.to_float::<f64>(false).is_finite(),
    }
}

fn is_negative(numeral: &Numeral<'_>) -> bool
    ensures { result ≡ is_some (number_from true numeral.now) }
{
    if let Some(n) = numeral.to_i64(true) {
        if n < 0 {
            return true;
        }
    }
    numeral.to_float::<f64>(true).is_finite()
}
