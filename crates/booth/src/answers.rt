//! The kinds of answers, each of which is counted.

ghost use Rattle.std.specs.Prelude.{◌≡◌};
ghost use Rattle.booth.specs.Views.{is_accepted, is_full, is_lost};

use serial_log::Answer;

pub(crate) fn is_accepted(answer: Answer) -> bool
    ensures { result ≡ is_accepted answer }
{
    matches!(answer, Answer::Accepted(_))
}

pub(crate) fn is_full(answer: Answer) -> bool
    ensures { result ≡ is_full answer }
{
    matches!(answer, Answer::Full)
}

pub(crate) fn is_lost(answer: Answer) -> bool
    ensures { result ≡ is_lost answer }
{
    matches!(answer, Answer::Lost(_))
}
