//! What the executor is about next. A phase is written here alone, so that a step that leaves it
//! where it is makes no room for another.

ghost use Rattle.std.specs.Prelude.{◌≡◌};

use coati_device::Phase;
use word_cpu::Cpu;

/// Memory alone tells what is next.
pub fn choose_next(phase: &mut Phase)
    ensures { phase.new ≡ Phase.Choose }
{
    *phase = Phase::Choose;
}

/// The machine runs a body next, and makes so many steps at most before the one that ends it.
pub fn run_next(phase: &mut Phase, cpu: Cpu, most: u32)
    ensures { phase.new ≡ Phase.Run cpu most }
{
    *phase = Phase::Run(cpu, most);
}

/// The task to run has ended, and the program goes on at this place.
pub fn end_next(phase: &mut Phase, place: u16)
    ensures { phase.new ≡ Phase.End place }
{
    *phase = Phase::End(place);
}

/// The bottom half of the oldest held posting has ended.
pub fn end_bottom_next(phase: &mut Phase)
    ensures { phase.new ≡ Phase.EndBottom }
{
    *phase = Phase::EndBottom;
}
