ghost use Rattle.std.specs.Prelude.{◌≡◌, ◌≤◌, ◌^◌, ◌<◌, IfSome};
ghost use Rattle.trace_text.specs.Reading.{number_in};

use coati_text::Cursor;

/// The number in the range of which the field is the decimal.
pub fn number_in(least: u32, most: u32, field: &[u8]) -> Option<u32>
    ensures number { result ≡ number_in least most field.now }
    ensures least { IfSome result (λ number. least ≤ number) }
    ensures most { IfSome result (λ number. number ≤ most) }
{
    let mut cursor = Cursor {
        bytes: field,
        place: 0,
    };
    match cursor.read_decimal(most) {
        Ok(number) if number >= least && cursor.place == field.len() => Some(number),
        _ => None,
    }
}
