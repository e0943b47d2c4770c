ghost use Rattle.std.specs.Prelude.{◌≡◌, ◌==◌, slice_index};
ghost use Rattle.lent_json.specs.Flat.{count_in};

use fast_float::Numeral;

/// Returns the whole number in the text of a JSON number, 0 to 2^64 - 1, written without sign,
/// point and exponent. Returns `None` if it is another number.
pub(crate) fn count_in(text: &str) -> Option<u64>
    ensures { result ≡ count_in text.now }
{
    let bytes = text.as_bytes();
    if has_minus(bytes) {
        None
    } else {
        Numeral::scan(bytes).to_u64()
    }
}

fn has_minus(bytes: &[u8]) -> bool
    ensures { result ≡ (slice_index bytes.now 0 == 45) }
{
    matches!(bytes.first(), Some(b'-'))
}
