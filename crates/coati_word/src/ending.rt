use crate::Message;

/// How a body ended.
#[derive(Clone, Copy, Debug, PartialEq, Eq)]
pub enum Ending {
    /// A task that goes on with the task of this number.
    Next(u16),
    /// A task after which no task runs.
    Halt,
    /// A bottom half.
    Done,
    /// A top half, with what it gives its bottom half.
    Given(Message),
}
