ghost use Rattle.std.specs.Prelude.{◌≡◌, ◌++◌, decimal, OnOk, OnErr};

use coati_word::OutOfMemory;
use itoa::Buffer;

/// Appends the decimal of a number. A refusal appends nothing.
pub fn put_decimal(out: &mut Vec<u8>, n: u32) -> Result<(), OutOfMemory>
    ensures ok { OnOk result (out.new.items ≡ out.old.items ++ decimal n) }
    ensures err { OnErr result (out.new.items ≡ out.old.items) }
{
    let mut buffer = Buffer::new();
    Ok(out.extend_from_slice(buffer.format(n).as_bytes())?)
}
