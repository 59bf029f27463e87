/// What is said of a fault: of a source's bytes, of its tokens, of a rule, or of a trace. Most are
/// said of the word that stands at the place.
#[derive(Clone, Copy, Debug, PartialEq, Eq)]
pub(crate) enum Message {
    /// A byte that starts nothing.
    StrangeByte,
    /// The same, where it can't be shown.
    UnprintableByte(u8),
    /// A byte order mark, which starts nothing.
    ByteOrderMark,
    /// A number above the greatest.
    GreatNumber,
    /// A number that a letter follows directly.
    NumberIntoLetter,
    /// A source of blanks and comments alone.
    NoTokens,
    /// A first token with which no program begins.
    NoBeginning,
    /// A token with which no program goes on behind the one before it.
    NoGoingOn,
    /// A last token behind which every program goes on.
    EndsEarly,
    /// The 65th open bracket.
    ManyBrackets,
    /// The 17th binary operator of an expression.
    ManyOperators,
    TwiceNamed,
    Unknown,
    WrongKind,
    BadCount,
    BadBuffer,
    TooManyWords,
    TooManyTasks,
    NoEnding,
    /// A `halt` or a `give` that breaks the rule EarlyEnding.
    EarlyEnding,
    /// A `next` that does.
    EarlyNext,
    IntoTx,
    TopReadsNv,
    /// A `give` that breaks the rule GiveShape.
    GiveCount,
    /// A parameter that does.
    FifthParameter,
    LoopAssigned,
    TooManyLocals,
    TooDeepStack,
    TooLong,
    /// A line of a trace that has none of the forms.
    BadLine,
    /// A line that names an event which the source does not have.
    UnknownEvent,
    /// A line that may not stand behind those before it.
    OutOfOrder,
    /// A line with which the trace is above a limit.
    AboveLimit,
    /// A first line that is no limit.
    OtherFirst,
    /// A trace of which no line says anything.
    NothingSaid,
}
