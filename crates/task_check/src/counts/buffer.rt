ghost use Rattle.task_check.specs.Counts.{bad_buffer_places};
ghost use Rattle.task_check.specs.Least.{IsLeastOf};

use crate::least::place_unless;
use coati_word::limits::BUFFER;
use task_syntax::Program;

/// Rule 5: where the buffer isn't 1 to 32.
#[tactic(auto, using(crate::proofs::LeastParts::IsLeastOf_least))]
pub(crate) fn bad_buffer(program: &Program) -> Option<u32>
    ensures { IsLeastOf (bad_buffer_places program.now) result }
{
    match &program.buffer {
        None => None,
        Some(number) => place_unless((1..=BUFFER).contains(&number.value), number.at),
    }
}
