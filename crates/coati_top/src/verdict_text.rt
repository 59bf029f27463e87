//! What is said of a printed text.

ghost use Rattle.std.specs.Prelude.{◌≡◌, IfOk};
ghost use Rattle.coati_top.specs.Replayed.{bad_print, difference, serial_text};

use coati_word::OutOfMemory;
use std::alloc::Global;
use trace_out::{put, put_number, put_number_line};

/// The line that tells that a printed text is serial and legal.
pub(crate) fn serial_text(alloc: Global) -> Result<Vec<u8>, OutOfMemory>
    ensures { IfOk result (λ text. text.items ≡ serial_text) }
{
    Ok(Vec::from_slice(alloc, b"serial\n")?)
}

/// The line that tells the first bad line of what is no printed text.
pub(crate) fn bad_print(alloc: Global, number: u32) -> Result<Vec<u8>, OutOfMemory>
    ensures { IfOk result (λ text. text.items ≡ bad_print number) }
{
    let mut out = Vec::new(alloc);
    put_number(&mut out, b"printed line", number)?;
    put(&mut out, b" bad\n")?;
    Ok(out)
}

/// The line that tells the first line of a printed text that differs.
pub(crate) fn difference(alloc: Global, number: u32) -> Result<Vec<u8>, OutOfMemory>
    ensures { IfOk result (λ text. text.items ≡ difference number) }
{
    let mut out = Vec::new(alloc);
    put_number_line(&mut out, b"differs line", number)?;
    Ok(out)
}
