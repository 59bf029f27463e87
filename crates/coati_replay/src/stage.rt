use crate::progress::Progress;

/// How far a text has been judged.
#[derive(Drop)]
pub(crate) enum Stage {
    /// The lines so far meet their conditions.
    Goes(Progress),
    /// The line of this number is the first that doesn't.
    Differs(u32),
}
