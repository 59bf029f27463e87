ghost use Rattle.std.specs.Prelude.{◌≡◌, ◌↔◌, IfOk, IsTrue, length, slice_index};
ghost use Rattle.serial_log.specs.Postings.{FollowsLost};
ghost use Rattle.serial_log.specs.Standing.{opening};
ghost use Rattle.coati_replay.specs.Kinds.{IsTimely};
ghost use Rattle.coati_replay.specs.Shown.{IsProgressOf, shown_by};

use coati_word::OutOfMemory;
use serial_log::{Held, Mark, MarkKind};
use serial_run::SerialStore;
use std::alloc::Global;
use task_check::Checked;

/// Where committed units lead.
#[derive(Drop)]
pub(crate) struct Run {
    pub(crate) store: SerialStore,
    pub(crate) place: u16,
}

/// What the lines so far lead to.
#[derive(Drop)]
pub(crate) struct Progress {
    pub(crate) run: Run,
    /// The accepted postings that are in no record, the oldest first.
    pub(crate) rest: Vec<Held>,
    pub(crate) accepted: u32,
    /// How many postings each device has raised. A text may name any device.
    pub(crate) raised: [u32; 256],
    pub(crate) boots: u32,
    pub(crate) last_boot: u32,
    /// The boot that has to follow at once.
    pub(crate) lost: Option<u32>,
    pub(crate) latest: u32,
}

/// That no device has raised a posting.
fn none_raised() -> [u32; 256]
    ensures none { slice_index result ≡ (λ device. 0) }
    ensures devices { length result ≡ 256 }
{
    [0; 256]
}

impl Progress {
    /// What no line leads to.
    pub(crate) fn opening(alloc: Global, checked: &Checked) -> Result<Progress, OutOfMemory>
        ensures opening { IfOk result (λ progress. shown_by progress ≡ opening checked.now) }
        ensures fits { IfOk result (IsProgressOf checked.now) }
    {
        let store = SerialStore::opening(alloc, checked)?;
        Ok(Progress {
            run: Run { store, place: 0 },
            rest: Vec::new(alloc),
            accepted: 0,
            raised: none_raised(),
            boots: 0,
            last_boot: 0,
            lost: None,
            latest: 0,
        })
    }

    /// Whether a mark comes in time, and follows a lost posting as it has to.
    pub(crate) fn is_timely(&self, mark: &Mark) -> bool
        ensures { IsTrue result ↔ IsTimely (shown_by self.now) mark.now }
    {
        self.latest <= mark.at && self.follows_lost(mark)
    }

    /// Whether a mark is the boot of the posting that was lost before it, where one was.
    fn follows_lost(&self, mark: &Mark) -> bool
        ensures { IsTrue result ↔ FollowsLost (shown_by self.now) self.now.lost mark.now }
    {
        match self.lost {
            None => true,
            Some(boot) => match mark.kind {
                MarkKind::Boot(number) => number == boot && mark.at == self.latest,
                _ => false,
            },
        }
    }
}
