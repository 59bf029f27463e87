/// The rules of a program by their numbers, in the order in which they are read. Each comes with a
/// place of the source, of which it says what stands there.
#[derive(Clone, Copy, Debug, PartialEq, Eq)]
pub enum Rule {
    /// 1: a name that is taken already where it is declared.
    TwiceNamed,
    /// 2: a used name that nothing in scope has.
    Unknown,
    /// 3: a name that is used as what it isn't.
    WrongKind,
    /// 4: the name of a variable whose length or values don't fit, or of a loop whose count
    /// doesn't.
    BadCount,
    /// 5: the number of the buffer, which isn't 1 to 32.
    BadBuffer,
    /// 6: the name of the variable with which there are more than 256 words.
    TooManyWords,
    /// 7: the name of the 65th task, the 17th event or the 17th transaction.
    TooManyTasks,
    /// 8: the name of a task, or of an event by its top half, whose body doesn't end.
    NoEnding,
    /// 9: an ending that isn't last in its body, or not one for this kind of body.
    EarlyEnding,
    /// 10: the name of a task within a transaction, in a `next` outside.
    IntoTx,
    /// 11: the name of a variable in a top half.
    TopReadsNv,
    /// 12: the fifth parameter of a bottom half, or a `give` of another count than the parameters.
    GiveShape,
    /// 13: the name of a loop, where it is assigned to.
    LoopAssigned,
    /// 14: the name of a task or event with more than 32 locals in a body.
    TooManyLocals,
    /// 15: the name of a task or event with a body that needs more than 32 operand words.
    TooDeepStack,
    /// 16: the name of a task or event with a body that is too long. The number is the greater of
    /// its cost and the words of its code.
    TooLong(u32),
}
