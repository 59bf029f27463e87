ghost use Rattle.std.specs.Prelude.{◌≡◌, ◌≤◌};
ghost use Rattle.nv_memory.specs.InRange.{InRange};
ghost use Rattle.nv_memory.specs.State.{state};
ghost use Rattle.device_pace.specs.Effort.{cleaning_of, is_begun as is_begun_of};
ghost use Rattle.device_pace.specs.Effort.{flag_writes as flag_writes_of};
ghost use Rattle.device_pace.specs.Effort.{is_prepared as is_prepared_of};
ghost use Rattle.device_pace.specs.Effort.{stage_in as stage_in_body, stage_of as stage_of_phase};

use crate::counts::attempt_flags;
use crate::headers::undone;
use coati_device::Phase;
use coati_pace::Stage;
use nv_memory::{Image, Log, header};
use task_syntax::BodyId;

/// What the executor is about, and how far that is.
pub fn stage_of(image: &Image, phase: &Phase) -> Stage
    requires { InRange (state image.now) }
    ensures { result ≡ stage_of_phase (state image.now) phase.now }
{
    match phase {
        Phase::Choose => Stage::Chooses {
            cleaning: cleaning(image),
            begun: is_begun(image),
        },
        Phase::Run(cpu, left) => stage_in(*left, cpu.body()),
        Phase::End(place) => Stage::EndsTask {
            placed: image.next() == *place,
            begun: is_prepared(image),
        },
        Phase::EndBottom => Stage::EndsBottom {
            begun: is_prepared(image),
        },
    }
}

// That of a body with so many steps left.
fn stage_in(left: u32, body: BodyId) -> Stage
    ensures { result ≡ stage_in_body left body }
{
    match body {
        BodyId::Task(_) => Stage::RunsTask { left },
        BodyId::Top(_) | BodyId::Bottom(_) => Stage::RunsBottom { left },
    }
}

// The writes that empty the log and the flags which an attempt has left.
fn cleaning(image: &Image) -> u32
    requires { InRange (state image.now) }
    ensures { result ≡ cleaning_of (state image.now) }
{
    undone(image, header::TASK_LENGTH, 0) + flag_writes(image)
}

// Those of the flags, which only `buffi` sets.
fn flag_writes(image: &Image) -> u32
    ensures count { result ≡ flag_writes_of (state image.now) }
    ensures few { result ≤ image.now.n }
{
    if image.is_buffi() {
        attempt_flags(image)
    } else {
        0
    }
}

// Whether the first write for the oldest held posting is made.
fn is_begun(image: &Image) -> bool
    requires { InRange (state image.now) }
    ensures { result ≡ is_begun_of (state image.now) }
{
    if image.is_buffi() {
        is_prepared(image)
    } else {
        image.length(Log::Entry(image.layout().slot(image.head()))) == 0
    }
}

// Whether the position behind the head is written.
fn is_prepared(image: &Image) -> bool
    requires { InRange (state image.now) }
    ensures { result ≡ is_prepared_of (state image.now) }
{
    image.head_next() == image.layout().position_after(image.head())
}
