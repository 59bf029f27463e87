ghost use Rattle.std.specs.Prelude.{◌≡◌};
ghost use Rattle.nv_memory.specs.InRange.{InRange};
ghost use Rattle.nv_memory.specs.State.{state};
ghost use Rattle.coati_device.specs.OpenUnit.{has_unit as has_unit_of};
ghost use Rattle.device_pace.specs.Effort.{effort_of as effort_of_device};
ghost use Rattle.device_pace.specs.Effort.{place_behind as place_behind_of};
ghost use Rattle.device_pace.specs.Effort.{writes_under_way as writes_under_way_of};

use crate::commits::commit_writes;
use crate::stage::stage_of;
use crate::undos::undo_writes;
use coati_device::Device;
use coati_pace::{Effort, Place};
use coati_word::limits::HALT;
use commit_log::{Marker, place};
use event_buffer::held;
use nv_memory::Image;

/// What a device has to do before its next task ends.
pub fn effort_of(device: &Device) -> Effort
    requires range { InRange (state device.now.image) }
    ensures effort { result ≡ effort_of_device device.now }
{
    let image = &device.image;
    Effort {
        writes: writes_under_way(image),
        held: u32::from(held(image)),
        place: place_behind(image),
        stage: stage_of(image, &device.phase),
    }
}

// The writes that are left of the commit under way, else of the undo.
fn writes_under_way(image: &Image) -> u32
    requires { InRange (state image.now) }
    ensures { result ≡ writes_under_way_of (state image.now) }
{
    if image.mark() == 0 {
        undo_writes(image)
    } else {
        commit_writes(image)
    }
}

// Where the program stands once they are made.
fn place_behind(image: &Image) -> Place
    requires { InRange (state image.now) }
    ensures { result ≡ place_behind_of (state image.now) }
{
    if has_unit(image) {
        Place::Inside
    } else if place(image) == HALT {
        Place::Halted
    } else {
        Place::Outside
    }
}

// Whether a unit is open then.
fn has_unit(image: &Image) -> bool
    requires { InRange (state image.now) }
    ensures { result ≡ has_unit_of (state image.now) }
{
    match Marker::of(image) {
        Marker::Unit => false,
        Marker::IntoTx => !image.is_doomed(),
        Marker::Clear | Marker::Event => !image.is_doomed() && image.is_open(),
    }
}
