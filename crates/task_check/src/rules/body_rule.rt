ghost use Rattle.std.specs.Prelude.{◌≡◌};
ghost use Rattle.task_check.specs.BodyRules.{broken_in, read};
ghost use Rattle.task_check.specs.Least.{least};

use super::body::Body;
use super::endings::{early_endings, no_ending};
use super::loops::loop_assigned;
use super::measures::{too_deep_stack, too_many_locals};
use super::turns::bad_turns;

/// The rules that are read in each body by itself.
#[derive(Clone, Copy)]
pub(crate) enum BodyRule {
    BadCount,
    NoEnding,
    EarlyEnding,
    LoopAssigned,
    TooManyLocals,
    TooDeepStack,
}

impl BodyRule {
    /// The least place where the body breaks the rule.
    pub(crate) fn least_in(self, body: &Body<'_>) -> Option<u32>
        ensures { result ≡ least (broken_in self (read body.now)) }
    {
        match self {
            BodyRule::BadCount => bad_turns(body),
            BodyRule::NoEnding => no_ending(body),
            BodyRule::EarlyEnding => early_endings(body),
            BodyRule::LoopAssigned => loop_assigned(body),
            BodyRule::TooManyLocals => too_many_locals(body),
            BodyRule::TooDeepStack => too_deep_stack(body),
        }
    }
}
