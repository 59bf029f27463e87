ghost use Rattle.std.specs.Prelude.{◌≡◌, ◌≤◌, IfOk, OnOk, length};
ghost use Rattle.task_syntax.specs.Names.{opening_values, word_count};
ghost use Rattle.task_cost.specs.Bodies.{cost_of};
ghost use Rattle.codegen.specs.Bodies.{program_code};
ghost use Rattle.worked_bodies.specs.Bodies.{HasBodyFor, TellsBody};
ghost use Rattle.worked_bodies.specs.Ended.{EndsBy};

use crate::machine::run_within;
use crate::{NotedWords, PlainWords, Ran};
use coati_word::OutOfMemory;
use codegen::compile;
use codegen::laws::{
    accepted_bodies_fit, bodies_stand_by_number, fitting_bodies_compute_their_course,
};
use serial_run::SerialStore;
use std::alloc::Global;
use task_check::Checked;
use task_cost::body_cost;
use task_syntax::BodyId;
use word_code::Code;
use word_cpu::View;

/// A program with its code.
#[derive(Drop)]
pub struct Compiled {
    pub checked: Checked,
    code: Code,
    ghost is_code: { code ≡ program_code checked },
}

impl Compiled {
    /// The program with its code. It is refused only where memory is.
    pub fn new(alloc: Global, checked: Checked) -> Result<Compiled, OutOfMemory>
        ensures { IfOk result (λ compiled. compiled.checked ≡ checked) }
    {
        let code = compile(alloc, &checked)?;
        Ok(Compiled { checked, code })
    }

    /// What the variable words hold at first; each is stored to at once. It is refused only where
    /// memory is.
    pub fn plain(&self, alloc: Global) -> Result<PlainWords, OutOfMemory>
        ensures words { IfOk result (λ view. view.words.items ≡ opening_values self.now.checked) }
        ensures count { IfOk result (λ view. length view.words.items
            ≡ word_count self.now.checked.vars) }
    {
        let words = self.opening(alloc)?;
        Ok(PlainWords { words })
    }

    /// The same, but each is stored to in three parts.
    pub fn noted(&self, alloc: Global) -> Result<NotedWords, OutOfMemory>
        ensures words { IfOk result (λ view. view.words.items ≡ opening_values self.now.checked) }
        ensures count { IfOk result (λ view. length view.words.items
            ≡ word_count self.now.checked.vars) }
        ensures loads { IfOk result (λ view. view.loads ≡ 0) }
    {
        let words = self.opening(alloc)?;
        Ok(NotedWords {
            words,
            word: 0,
            value: 0,
            loads: 0,
        })
    }

    fn opening(&self, alloc: Global) -> Result<Vec<u16>, OutOfMemory>
        ensures words { IfOk result (λ words. words.items ≡ opening_values self.now.checked) }
        ensures count { IfOk result (λ words. length words.items
            ≡ word_count self.now.checked.vars) }
    {
        let store = SerialStore::opening(alloc, &self.checked)?;
        let mut words = Vec::new(alloc);
        for word in 0..self.checked.words() {
            words.push(store.get(word))?;
        }
        Ok(words)
    }

    /// Runs a body on the machine, over any view of the program's words. It tells what the
    /// evaluator tells, and by how many machine steps, which is within the body's cost; it is
    /// refused only where memory is.
    pub fn run<V: View>(
        &self,
        alloc: Global,
        body: BodyId,
        params: &[u16],
        view: &mut V,
    ) -> Result<Ran, OutOfMemory>
        requires words { length (V.meaning.words view.old) ≡ word_count self.now.checked.vars }
        requires body { HasBodyFor self.now.checked body params.now }
        requires few { length params.now ≤ 4 }
        ensures told { IfOk result (λ ran. TellsBody self.now.checked body params.now
            (V.meaning.words view.old) (V.meaning.words view.new) ran.readings.items ran.ending) }
        ensures ends { IfOk result (λ ran. EndsBy V.meaning (program_code self.now.checked) body
            params.now
            view.old ran.steps ran.readings.items ran.ending view.new) }
        ensures in_time { IfOk result (λ ran. ran.steps ≤ cost_of self.now.checked body) }
        ensures words { OnOk result
            (length (V.meaning.words view.new) ≡ length (V.meaning.words view.old)) }
    {
        let _program = self.checked.program();
        accepted_bodies_fit();
        bodies_stand_by_number();
        fitting_bodies_compute_their_course();
        let cost = body_cost(&self.checked, body);
        run_within(alloc, &self.code, body, params, view, cost)
    }
}
