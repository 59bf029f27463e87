use task_check::Rule;

/// What is wrong with a source.
#[derive(Clone, Copy, Debug, PartialEq, Eq)]
pub enum SourceFault {
    /// At this place stands a byte that starts nothing.
    Lexical(u32),
    /// At this place stands a number that is none.
    Number(u32),
    /// With this token no program goes on, or the tokens end before it.
    Syntax(u32),
    /// This token stands too deep.
    Deep(u32),
    /// At this place the program breaks a rule.
    Rule(Rule, u32),
}

/// Why a source gives no accepted program.
#[derive(Clone, Copy)]
pub enum NoProgram {
    Fault(SourceFault),
    OutOfMemory,
}
