ghost use Rattle.std.specs.Prelude.{ℕ, ◌≡◌, ◌+◌, ◌∷◌, ◌^◌, ◌<◌, ◌≤◌, Some, drop, length};
ghost use Rattle.std.specs.Bool.{OnFalse, OnTrue};
ghost use Rattle.word_code.specs.declared.instruction.Instr.{Instr as Instruction};
ghost use Rattle.word_code.specs.Code.{HasBody};
ghost use Rattle.word_code.specs.Instruction.{IsEncodable, decoded, width};
ghost use Rattle.word_code.specs.Machine.{CanRun, Move, behind, below, move_of, top};
ghost use Rattle.word_cpu.specs.UnderWay.{IsAtStart};
ghost use Rattle.word_cpu.specs.Turning.{CanStep, HasLoaded, HasStored, IsBegun, IsGoing, IsStep, IsStoring, Makes, OfTheMove, StepsOnWords, StoresPart, state_of};

use crate::locals::Locals;
use crate::operands::Operands;
use crate::{Turn, View};
use coati_word::{Ending, Reading, apply, apply1};
use task_syntax::BodyId;
use word_code::{Code, Instr, decode};

/// The word machine in the middle of a body.
#[derive(Drop)]
pub struct Cpu {
    body: BodyId,
    place: usize,
    operands: Operands,
    locals: Locals,
    // How many parts of the store under way are made.
    part: u8,
}

impl Cpu {
    /// The machine at the start of a body of this code.
    pub fn start(_code: &Code, body: BodyId, params: &[u16]) -> Cpu
        requires exists { HasBody _code.now body }
        requires few { length params.now ≤ 4 }
        ensures { IsAtStart body params.now result }
    {
        Cpu {
            body,
            place: 0,
            operands: Operands::new(),
            locals: Locals::new(params),
            part: 0,
        }
    }

    /// The body that it runs.
    pub fn body(&self) -> BodyId
        ensures { result ≡ self.now.body }
    {
        self.body
    }

    /// One machine step on the code that the machine was started on. It makes the move of the
    /// instruction at the place, or a part of it where that is a store. No memory is taken.
    pub fn step<V: View>(&mut self, code: &Code, view: &mut V) -> Turn
        requires exists { HasBody code.now self.old.body }
        // A word's number is a u16.
        requires few { length (V.meaning.words view.old) ≤ 2 ^ 16 }
        requires runs { CanStep code.now self.old (length (V.meaning.words view.old)) }
        requires begun { OfTheMove code.now self.old
            (IsBegun (V.meaning.begun view.old) self.old.part) }
        ensures step { IsStep V.meaning code.now self.old self.new view.old view.new result }
        ensures words { OfTheMove code.now self.old
            (StepsOnWords V.meaning self.old self.new view.old view.new result) }
    {
        let instr = instruction_at(code.body(self.body), self.place);
        self.act(instr, view)
    }

    #[tactic(auto, using(crate::proofs::Begun::not_above_0))]
    fn act<V: View>(&mut self, instr: Instr, view: &mut V) -> Turn
        requires room { self.old.place < 2 ^ 62 }
        requires few { length (V.meaning.words view.old) ≤ 2 ^ 16 }
        requires in_range { IsEncodable instr }
        requires can_run { CanRun (length (V.meaning.words view.old)) instr (state_of self.old) }
        requires begun { IsBegun (V.meaning.begun view.old) self.old.part
            (move_of instr (state_of self.old)) }
        ensures body { self.new.body ≡ self.old.body }
        ensures makes { Makes V.meaning self.old self.new view.old view.new result
            (move_of instr (state_of self.old)) }
    {
        match instr {
            Instr::LoadV(word) => self.load(view, word, 2),
            Instr::LoadX(first, length) => {
                let index = self.operands.pop();
                self.load(view, first + index % length, 3)
            }
            Instr::StoreV(word) => self.store(view, word),
            Instr::StoreX(first, length) => {
                let index = self.operands.second();
                self.store_item(view, first + index % length)
            }
            Instr::Next(task) => Turn::Ended(Ending::Next(task)),
            Instr::Halt => Turn::Ended(Ending::Halt),
            Instr::Done => Turn::Ended(Ending::Done),
            Instr::Give(count) => Turn::Ended(Ending::Given(self.operands.message(count as usize))),
            _ => {
                self.go_on(instr);
                Turn::Went(None)
            }
        }
    }

    // An instruction that touches no variable word and doesn't end the body.
    fn go_on(&mut self, instr: Instr)
        requires room { self.old.place < 2 ^ 62 }
        requires in_range { IsEncodable instr }
        requires can_run { CanRun 0 instr (state_of self.old) }
        requires goes { IsGoing (move_of instr (state_of self.old)) }
        ensures body { self.new.body ≡ self.old.body }
        ensures part { self.new.part ≡ self.old.part }
        ensures goes { move_of instr (state_of self.old) ≡ Move.goes (state_of self.new) }
    {
        self.place += match instr {
            Instr::Two(_) | Instr::One(_) => 1,
            _ => 2,
        };
        match instr {
            Instr::Push(word) => self.operands.push(word),
            Instr::GetL(local) => self.operands.push(self.locals.get(local)),
            Instr::SetL(local) => self.locals.set(local, self.operands.pop()),
            Instr::Jump(place) => self.place = place as usize,
            Instr::JumpZ(place) => {
                if self.operands.pop() == 0 {
                    self.place = place as usize;
                }
            }
            Instr::Two(op) => {
                let right = self.operands.pop();
                let left = self.operands.pop();
                self.operands.push(apply(op, left, right));
            }
            Instr::One(op) => {
                let operand = self.operands.pop();
                self.operands.push(apply1(op, operand));
            }
            _ => unreachable!(),
        }
    }

    fn load<V: View>(&mut self, view: &mut V, word: u16, width: usize) -> Turn
        requires place { self.old.place < 2 ^ 62 }
        requires width { width < 4 }
        requires part { self.old.part ≡ 0 }
        requires room { length self.old.operands < 32 }
        requires word { word < length (V.meaning.words view.old) }
        ensures body { self.new.body ≡ self.old.body }
        ensures loads { HasLoaded V.meaning word
            (λ value. behind width (value ∷ self.old.operands) (state_of self.old))
            self.old self.new view.old view.new result }
    {
        let value = view.load(word);
        self.operands.push(value);
        self.place += width;
        Turn::Went(Some(Reading { word, value }))
    }

    fn store<V: View>(&mut self, view: &mut V, word: u16) -> Turn
        requires place { self.old.place < 2 ^ 62 }
        requires operand { 0 < length self.old.operands }
        requires word { word < length (V.meaning.words view.old) }
        requires begun { 0 < self.old.part →
            V.meaning.begun view.old word (top self.old.operands) self.old.part }
        ensures body { self.new.body ≡ self.old.body }
        ensures stores { StoresPart V.meaning word (top self.old.operands)
            (behind 2 (below self.old.operands) (state_of self.old))
            self.old self.new view.old view.new result }
    {
        if !self.store_part(view, word) {
            return Turn::Storing;
        }
        self.operands.pop();
        self.place += 2;
        Turn::Went(None)
    }

    fn store_item<V: View>(&mut self, view: &mut V, word: u16) -> Turn
        requires place { self.old.place < 2 ^ 62 }
        requires operands { 1 < length self.old.operands }
        requires word { word < length (V.meaning.words view.old) }
        requires begun { 0 < self.old.part →
            V.meaning.begun view.old word (top self.old.operands) self.old.part }
        ensures body { self.new.body ≡ self.old.body }
        ensures stores { StoresPart V.meaning word (top self.old.operands)
            (behind 3 (below (below self.old.operands)) (state_of self.old))
            self.old self.new view.old view.new result }
    {
        if !self.store_part(view, word) {
            return Turn::Storing;
        }
        self.operands.pop();
        self.operands.pop();
        self.place += 3;
        Turn::Went(None)
    }

    // The next part of the store of the last operand in a word. It answers true where it was the
    // last.
    fn store_part<V: View>(&mut self, view: &mut V, word: u16) -> bool
        requires operand { 0 < length self.old.operands }
        requires word { word < length (V.meaning.words view.old) }
        requires begun { 0 < self.old.part →
            V.meaning.begun view.old word (top self.old.operands) self.old.part }
        ensures body { self.new.body ≡ self.old.body }
        ensures last { OnTrue result (HasStored V.meaning word (top self.old.operands)
            (state_of self.old) self.old self.new view.old view.new) }
        ensures more { OnFalse result (IsStoring V.meaning word (top self.old.operands)
            self.old self.new view.old view.new) }
    {
        let value = self.operands.last();
        let is_last = view.store(word, value, self.part);
        if is_last {
            self.part = 0;
        } else {
            self.part += 1;
        }
        is_last
    }
}

// The instruction that starts at a place.
fn instruction_at(words: &[u16], place: usize) -> Instr
    requires { (instr : Instruction)
        × (decoded (drop place words.now) ≡ Some (instr, width instr)) }
    ensures starts { decoded (drop place words.now) ≡ Some (result, width result) }
    ensures in_range { IsEncodable result }
    ensures inside { place < length words.now }
{
    match decode(words, place) {
        Some((instr, _)) => instr,
        None => unreachable!(),
    }
}
