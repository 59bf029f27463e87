//! The lines before and behind those of marks.

ghost use Rattle.std.specs.Prelude.{◌≡◌};
ghost use Rattle.trace_out.specs.LineReading.{bound_in, end_in, held_in, mode_in};

use crate::front::{behind, last_number};
use coati_word::Mode;
use serial_log::End;

#[tactic(auto, unfolding(crate::specs::LineReading::mode_in))]
pub(crate) fn mode_in(line: &[u8]) -> Option<Mode>
    ensures { result ≡ mode_in line.now }
{
    if line == b"coati split".as_slice() {
        Some(Mode::Split)
    } else if line == b"coati buffi".as_slice() {
        Some(Mode::Buffi)
    } else {
        None
    }
}

#[tactic(auto, unfolding(crate::specs::LineReading::bound_in))]
pub(crate) fn bound_in(line: &[u8]) -> Option<u32>
    ensures { result ≡ bound_in line.now }
{
    last_number(u32::MAX, behind(line, b"bound ")?)
}

#[tactic(auto, unfolding(crate::specs::LineReading::end_in))]
pub(crate) fn end_in(line: &[u8]) -> Option<End>
    ensures { result ≡ end_in line.now }
{
    if line == b"end idle".as_slice() {
        Some(End::Idle)
    } else if line == b"end limit".as_slice() {
        Some(End::Limit)
    } else {
        None
    }
}

#[tactic(auto, unfolding(crate::specs::LineReading::held_in))]
pub(crate) fn held_in(line: &[u8]) -> Option<u32>
    ensures { result ≡ held_in line.now }
{
    last_number(u32::MAX, behind(line, b"held ")?)
}
