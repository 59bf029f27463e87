ghost use Rattle.std.specs.Prelude.{◌≡◌, ◌+◌, ◌≤◌, length, drop};
ghost use Rattle.coati_top.specs.Divided.{source_length, source_part, second_part, begins_divider};

/// The part of an input before its first line that is exactly `%%`, or the whole input where it
/// has none.
pub fn source_part(input: &[u8]) -> &[u8]
    ensures { result.now ≡ source_part input.now }
{
    &input[..source_length(input)]
}

/// The part behind that line, which is empty where there is none.
pub fn second_part(input: &[u8]) -> &[u8]
    ensures { result.now ≡ second_part input.now }
{
    let divider = source_length(input) + DIVIDER_LINE;
    if divider <= input.len() {
        &input[divider..]
    } else {
        &[]
    }
}

/// The bytes of the line `%%` with its end.
const DIVIDER_LINE: usize = 3;

/// How many bytes stand before the first line that is exactly `%%`.
fn source_length(input: &[u8]) -> usize
    ensures place { result ≡ source_length input.now }
    ensures within { result ≤ length input.now }
{
    let mut begins_line = true;
    for (place, byte) in input.iter().enumerate() {
        if begins_line && begins_divider(&input[place..]) {
            return place;
        }
        begins_line = *byte == b'\n';
    }
    input.len()
}

/// Whether the text begins with a line that is exactly `%%`.
fn begins_divider(text: &[u8]) -> bool
    ensures { result ≡ begins_divider text.now }
{
    matches!(text, [b'%', b'%'] | [b'%', b'%', b'\n', ..])
}
