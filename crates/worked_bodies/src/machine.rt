ghost use Rattle.std.specs.Prelude.{◌≡◌, ◌≤◌, ◌++◌, IfNone, IfOk, IfSome, OnOk, length};
ghost use Rattle.coati_word.specs.declared.ending.Ending.{Ending};
ghost use Rattle.task_syntax.specs.Course.{Course};
ghost use Rattle.word_code.specs.Code.{HasBody, body_words};
ghost use Rattle.word_code.specs.Following.{Computes};
ghost use Rattle.word_cpu.specs.declared.turn.Turn.TheVariants.{Ended};
ghost use Rattle.word_cpu.specs.OnCourse.{read_by};
ghost use Rattle.word_cpu.specs.Reached.{HasNotEnded};
ghost use Rattle.worked_bodies.specs.Bodies.{TellsWhatIsComputed};
ghost use Rattle.worked_bodies.specs.Ended.{EndsBy};

use coati_word::{Ending, OutOfMemory, Reading};
use std::alloc::Global;
use task_syntax::BodyId;
use word_code::Code;
use word_cpu::laws::machines_keep_to_the_course;
use word_cpu::{Cpu, Turn, View};

/// What a body did: what it read, in its order, how it ended, and in how many machine steps.
#[derive(Drop)]
pub struct Ran {
    pub readings: Vec<Reading>,
    pub ending: Ending,
    pub steps: u32,
}

/// Runs a body to its end, which comes within its cost.
pub(crate) fn run_within<V: View>(
    alloc: Global,
    code: &Code,
    body: BodyId,
    params: &[u16],
    view: &mut V,
    cost: u32,
) -> Result<Ran, OutOfMemory>
    requires exists { HasBody code.now body }
    requires few { length params.now ≤ 4 }
    requires words { length (V.meaning.words view.old) ≤ 256 }
    requires computes { (course : Course Ending)
        × Computes (body_words code.now body) (length (V.meaning.words view.old)) cost params.now
        course }
    ensures told { IfOk result (λ ran. TellsWhatIsComputed (body_words code.now body) cost
        params.now
        (V.meaning.words view.old) (V.meaning.words view.new) ran.readings.items ran.ending) }
    ensures ends { IfOk result (λ ran. EndsBy V.meaning code.now body params.now view.old
        ran.steps ran.readings.items ran.ending view.new) }
    ensures in_time { IfOk result (λ ran. ran.steps ≤ cost) }
    ensures words { OnOk result
        (length (V.meaning.words view.new) ≡ length (V.meaning.words view.old)) }
{
    machines_keep_to_the_course::<V>();
    let mut cpu = Cpu::start(code, body, params);
    let mut readings = Vec::new(alloc);
    for spent in 0..cost {
        let turn = cpu.step(code, view);
        if let Some(ending) = keep(&mut readings, turn)? {
            return Ok(Ran {
                readings,
                ending,
                steps: spent + 1,
            });
        }
    }
    unreachable!()
}

/// Keeps what a step read. It answers how the body ended, where it did.
fn keep(readings: &mut Vec<Reading>, turn: Turn) -> Result<Option<Ending>, OutOfMemory>
    ensures read { OnOk result (readings.new.items ≡ readings.old.items ++ read_by turn) }
    ensures ended { IfOk result (λ end. IfSome end (λ ending. turn ≡ Ended ending)) }
    ensures goes_on { IfOk result (λ end. IfNone end (HasNotEnded turn)) }
{
    match turn {
        Turn::Went(Some(reading)) => readings.push(reading)?,
        Turn::Went(None) | Turn::Storing => {}
        Turn::Ended(ending) => return Ok(Some(ending)),
    }
    Ok(None)
}
