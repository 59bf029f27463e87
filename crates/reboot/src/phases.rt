ghost use Rattle.nv_memory.specs.State.{state};
ghost use Rattle.reboot.specs.Phases.{IsAfterCut};

use nv_memory::Image;

// The marker where no commit is under way.
const CLEAR: u16 = 0;

/// What there is to do.
#[derive(Clone, Copy, Debug, PartialEq, Eq)]
pub enum Phase {
    /// To end the commit that is under way.
    Apply,
    /// To end the undo of the transaction that is aborted.
    Undo,
    /// To choose what runs next.
    Choose,
}

/// What there is to do after a cut: a function of the image alone.
pub fn after_cut(img: &Image) -> Phase
    ensures { IsAfterCut (state img.now) result }
{
    if img.mark() != CLEAR {
        Phase::Apply
    } else if img.is_doomed() {
        Phase::Undo
    } else {
        Phase::Choose
    }
}
