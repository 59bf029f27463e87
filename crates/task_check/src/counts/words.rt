ghost use Rattle.task_check.specs.Counts.{too_many_words_places};
ghost use Rattle.task_check.specs.Least.{IsLeastOf};

use crate::least::{lesser, place_unless};
use coati_word::limits::VARIABLE_WORDS;
use task_syntax::Program;

/// Rule 6: the variable with which there are more than 256 words.
pub(crate) fn too_many_words(program: &Program) -> Option<u32>
    ensures { IsLeastOf (too_many_words_places program.now) result }
{
    let mut found = None;
    let mut words = 0u32;
    for var in program.vars.as_slice() {
        words = words.saturating_add(u32::from(var.length.unwrap_or(1)));
        found = lesser(
            found,
            place_unless(words <= u32::from(VARIABLE_WORDS), var.name.at),
        );
    }
    found
}
