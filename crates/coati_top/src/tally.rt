//! How many marks of each kind a history has.

ghost use Rattle.std.specs.Prelude.{◌≡◌};
ghost use Rattle.coati_top.specs.Loaded.{how_many, is_abort, is_acceptance, is_answered};
ghost use Rattle.coati_top.specs.Loaded.{is_boot, is_commit, is_fullness, is_loss};
ghost use Rattle.coati_top.specs.Tallies.{CanCount, counted};

use serial_log::{Answer, Mark, MarkKind};

/// How many marks there are of the kinds that are counted.
#[derive(Clone, Copy, Default)]
pub(crate) struct Tally {
    pub(crate) commits: usize,
    pub(crate) aborts: usize,
    pub(crate) boots: usize,
    pub(crate) accepted: usize,
    pub(crate) full: usize,
    pub(crate) lost: usize,
}

impl Tally {
    /// Counts a mark.
    fn count(&mut self, mark: &Mark)
        requires { CanCount self.old }
        ensures { self.new ≡ counted mark.now.kind self.old }
    {
        match mark.kind {
            MarkKind::Commit(_) => self.commits += 1,
            MarkKind::Abort(_) => self.aborts += 1,
            MarkKind::Boot(_) => self.boots += 1,
            MarkKind::Posted(posted) => match posted.answer {
                Answer::Accepted(_) => self.accepted += 1,
                Answer::Full => self.full += 1,
                Answer::Lost(_) => self.lost += 1,
            },
            MarkKind::Done(_) | MarkKind::End(_) => {}
        }
    }
}

/// How many of the marks are of each kind.
pub(crate) fn tally_of(marks: &[Mark]) -> Tally
    ensures commits { result.commits ≡ how_many is_commit marks.now }
    ensures aborts { result.aborts ≡ how_many is_abort marks.now }
    ensures boots { result.boots ≡ how_many is_boot marks.now }
    ensures accepted { result.accepted ≡ how_many (is_answered is_acceptance) marks.now }
    ensures full { result.full ≡ how_many (is_answered is_fullness) marks.now }
    ensures lost { result.lost ≡ how_many (is_answered is_loss) marks.now }
{
    let mut tally = Tally::default();
    for mark in marks {
        tally.count(mark);
    }
    tally
}
