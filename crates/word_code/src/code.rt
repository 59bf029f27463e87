ghost use Rattle.std.specs.Prelude.{◌≡◌, ◌<◌, [], ◌∷◌, OnOk, OnErr, length, slice_index_or};
ghost use Rattle.std.specs.List.{concat};
ghost use Rattle.std.specs.Vec.{vec_capacity, vec_len};
ghost use Rattle.word_code.specs.Code.{HasBody, RisesTo, body_words, entry_of, number_of, pieces, with_body};

use crate::encoding::append;
use coati_word::OutOfMemory;
use std::alloc::Global;
use std::marker::Model;
use task_syntax::BodyId;

/// The code of a program: the words of all bodies, tasks by number, then for each event its top
/// half and its bottom half.
#[derive(Drop)]
pub struct Code {
    tasks: u16,
    words: Vec<u16>,
    // The place behind each body.
    ends: Vec<usize>,
}

impl Model for Code {
    ghost use Rattle.std.specs.Prelude.{length};
    ghost use Rattle.word_code.specs.Code.{Bodies, RisesTo, pieces};

    ghost Value = { Bodies };

    ghost view = { λ c. record { tasks = c.tasks; bodies = pieces 0 c.ends.items c.words.items } };

    ghost invariant = { λ c. RisesTo 0 c.ends.items (length c.words.items) };
}

impl Code {
    /// Code of a program of so many tasks, without a body yet.
    pub fn new(alloc: Global, tasks: u16) -> Code
        ensures { result ≡ record { tasks = tasks; bodies = [] } }
    {
        Code {
            tasks,
            words: Vec::new(alloc),
            ends: Vec::new(alloc),
        }
    }

    /// Adds the next body. A refusal adds nothing.
    pub fn push(&mut self, body: &[u16]) -> Result<(), OutOfMemory>
        ensures ok { OnOk result (self.new ≡ with_body self.old body.now) }
        ensures err { OnErr result (self.new ≡ self.old) }
    {
        reserve_one(&mut self.ends)?;
        append(&mut self.words, body)?;
        self.ends.push_reserved(self.words.len());
        Ok(())
    }

    /// The words of all bodies, one body after another.
    pub fn words(&self) -> &[u16]
        ensures { result.now ≡ concat self.now.bodies }
    {
        self.words.as_slice()
    }

    /// Where a body begins among the words.
    pub fn entry(&self, body: BodyId) -> usize
        requires { HasBody self.now body }
        ensures { result ≡ entry_of self.now body }
    {
        start_at(&self.ends, self.number(body))
    }

    /// How many words a body has.
    pub fn len_of(&self, body: BodyId) -> usize
        requires { HasBody self.now body }
        ensures { result ≡ length (body_words self.now body) }
    {
        self.body(body).len()
    }

    /// The words of a body.
    pub fn body(&self, body: BodyId) -> &[u16]
        requires { HasBody self.now body }
        ensures { result.now ≡ body_words self.now body }
    {
        piece_at(&self.words, &self.ends, self.number(body))
    }

    fn number(&self, body: BodyId) -> usize
        ensures { result ≡ number_of self.now.tasks body }
    {
        match body {
            BodyId::Task(task) => task as usize,
            BodyId::Top(event) => self.tasks as usize + 2 * event as usize,
            BodyId::Bottom(event) => self.tasks as usize + 2 * event as usize + 1,
        }
    }
}

// Room for one place more.
fn reserve_one(ends: &mut Vec<usize>) -> Result<(), OutOfMemory>
    ensures same { ends.new.items ≡ ends.old.items }
    ensures room { OnOk result (vec_len ends.new < vec_capacity ends.new) }
{
    Ok(ends.reserve(1)?)
}

// Where the body of a number begins: behind the body before.
fn start_at(ends: &[usize], number: usize) -> usize
    requires { number < length ends.now }
    ensures { result ≡ slice_index_or (0 ∷ ends.now) number 0 }
{
    match number {
        0 => 0,
        _ => ends[number - 1],
    }
}

#[tactic(auto, using(crate::proofs::Pieces::start_within, crate::proofs::Pieces::end_within, crate::proofs::Pieces::piece_is))]
fn piece_at<'a>(words: &'a [u16], ends: &[usize], number: usize) -> &'a [u16]
    requires inside { number < length ends.now }
    requires rise { RisesTo 0 ends.now (length words.now) }
    ensures { result.now ≡ slice_index_or (pieces 0 ends.now words.now) number [] }
{
    &words[start_at(ends, number)..ends[number]]
}
