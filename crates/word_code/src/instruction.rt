use coati_word::{Op, Op1};

/// An instruction of the word machine.
#[derive(Clone, Copy, Debug, PartialEq, Eq)]
pub enum Instr {
    /// Pushes a word.
    Push(u16),
    /// Pushes the local of this number.
    GetL(u16),
    /// Pops a word into the local of this number.
    SetL(u16),
    /// Pushes a variable word.
    LoadV(u16),
    /// Pops a value and stores it in a variable word.
    StoreV(u16),
    /// Pops an index and pushes the item of the array that begins at the first word and has the
    /// second as its length.
    LoadX(u16, u16),
    /// Pops a value and an index and stores the value in that item of an array.
    StoreX(u16, u16),
    /// Goes on at this word of the body.
    Jump(u16),
    /// Pops a word, and where it is 0 goes on at this word of the body.
    JumpZ(u16),
    /// Ends a task that goes on with the task of this number.
    Next(u16),
    /// Ends a task after which no task runs.
    Halt,
    /// Ends a bottom half.
    Done,
    /// Pops so many words and ends a top half with them.
    Give(u16),
    /// Pops the right and the left operand and pushes the operator's value.
    Two(Op),
    /// Pops the operand and pushes the operator's value.
    One(Op1),
}
