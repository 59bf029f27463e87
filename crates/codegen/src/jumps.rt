ghost use Rattle.std.specs.Prelude.{◌≡◌, ◌+◌, ◌≤◌, ◌++◌, ◌∷◌, OnOk};
ghost use Rattle.word_code.specs.declared.instruction.Instr.TheVariants.{Jump, JumpZ, Push, SetL};
ghost use Rattle.codegen.specs.Code.{head_code, turn_code};

use crate::segment::Segment;
use coati_word::{Op, OutOfMemory};
use word_code::Instr;

/// Behind a condition: a block that stands two words behind it, and where the condition is 0 a
/// jump past the block.
pub(crate) fn put_when(out: &mut Segment, block: Segment) -> Result<(), OutOfMemory>
    requires { out.old.end + 2 ≤ 50000 }
    ensures code { OnOk result (out.new.instrs.items ≡ out.old.instrs.items
        ++ (JumpZ block.end ∷ block.instrs.items)) }
    ensures end { OnOk result (out.new.end ≡ block.end) }
{
    out.push(Instr::JumpZ(block.end))?;
    out.append(block)
}

/// Behind a condition: a block that stands two words behind it, and another that stands two words
/// behind the first, where the condition is 0.
pub(crate) fn put_choice(
    out: &mut Segment,
    block: Segment,
    other: Segment,
) -> Result<(), OutOfMemory>
    requires test { out.old.end + 2 ≤ 50000 }
    requires end { block.end + 2 ≤ 50000 }
    ensures code { OnOk result (out.new.instrs.items ≡ out.old.instrs.items
        ++ (JumpZ (block.end + 2) ∷ (block.instrs.items
        ++ (Jump other.end ∷ other.instrs.items)))) }
    ensures end { OnOk result (out.new.end ≡ other.end) }
{
    out.push(Instr::JumpZ(block.end + 2))?;
    out.append(block)?;
    out.push(Instr::Jump(other.end))?;
    out.append(other)
}

/// A loop, whose block stands eleven words behind its start.
pub(crate) fn put_loop(
    out: &mut Segment,
    slot: u16,
    count: u16,
    block: Segment,
) -> Result<(), OutOfMemory>
    requires start { out.old.end + 11 ≤ 50000 }
    requires end { block.end + 9 ≤ 50000 }
    ensures code { OnOk result (out.new.instrs.items ≡ out.old.instrs.items
        ++ (Push 0 ∷ SetL slot ∷ (head_code slot count (block.end + 9)
        ++ (block.instrs.items ++ turn_code slot (out.old.end + 4))))) }
    ensures end { OnOk result (out.new.end ≡ block.end + 9) }
{
    let head = out.end + 4;
    let behind = block.end + 9;
    out.push_all(&[
        Instr::Push(0),
        Instr::SetL(slot),
        Instr::GetL(slot),
        Instr::Push(count),
        Instr::Two(Op::Lt),
        Instr::JumpZ(behind),
    ])?;
    out.append(block)?;
    out.push_all(&[
        Instr::GetL(slot),
        Instr::Push(1),
        Instr::Two(Op::Add),
        Instr::SetL(slot),
        Instr::Jump(head),
    ])
}
