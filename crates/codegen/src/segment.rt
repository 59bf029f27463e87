ghost use Rattle.std.specs.Prelude.{◌≡◌, ◌+◌, ◌≤◌, ◌++◌, ◌∷◌, [], OnOk};
ghost use Rattle.word_code.specs.Instruction.{width};
ghost use Rattle.codegen.specs.Code.{size};

use coati_word::OutOfMemory;
use std::alloc::Global;
use word_code::Instr;

/// Instructions that stand one behind another among the words of a body.
#[derive(Debug, Drop)]
pub(crate) struct Segment {
    pub(crate) instrs: Vec<Instr>,
    /// The word behind them.
    pub(crate) end: u16,
}

impl Segment {
    /// No instruction yet, at a word.
    pub(crate) fn new(alloc: Global, at: u16) -> Segment
        ensures instrs { result.instrs.items ≡ [] }
        ensures end { result.end ≡ at }
    {
        Segment {
            instrs: Vec::new(alloc),
            end: at,
        }
    }

    pub(crate) fn push(&mut self, instr: Instr) -> Result<(), OutOfMemory>
        requires { self.old.end + width instr ≤ 50000 }
        ensures instrs { OnOk result (self.new.instrs.items ≡ self.old.instrs.items
            ++ instr ∷ []) }
        ensures end { OnOk result (self.new.end ≡ self.old.end + width instr) }
    {
        self.instrs.push(instr)?;
        self.end += width(&instr);
        Ok(())
    }

    pub(crate) fn push_all(&mut self, instrs: &[Instr]) -> Result<(), OutOfMemory>
        requires { self.old.end + size instrs.now ≤ 50000 }
        ensures instrs { OnOk result (self.new.instrs.items ≡ self.old.instrs.items
            ++ instrs.now) }
        ensures end { OnOk result (self.new.end ≡ self.old.end + size instrs.now) }
    {
        for instr in instrs {
            self.push(*instr)?;
        }
        Ok(())
    }

    /// Puts a segment behind this one that begins where this one ends.
    pub(crate) fn append(&mut self, more: Segment) -> Result<(), OutOfMemory>
        ensures instrs { OnOk result (self.new.instrs.items ≡ self.old.instrs.items
            ++ more.instrs.items) }
        ensures end { OnOk result (self.new.end ≡ more.end) }
    {
        self.instrs.extend_from_slice(&more.instrs)?;
        self.end = more.end;
        Ok(())
    }
}

/// How many words an instruction has.
fn width(instr: &Instr) -> u16
    ensures width { result ≡ width instr.now }
    ensures few { result ≤ 3 }
{
    match instr {
        Instr::Halt | Instr::Done | Instr::Two(_) | Instr::One(_) => 1,
        Instr::LoadX(_, _) | Instr::StoreX(_, _) => 3,
        _ => 2,
    }
}
