/// The kinds of body.
#[derive(Clone, Copy, Debug, PartialEq, Eq)]
pub enum Kind {
    Task,
    /// The top half of an event.
    Top,
    /// The bottom half of an event.
    Bottom,
}

/// A body of a program, by the number of its task or event.
#[derive(Clone, Copy, Debug, PartialEq, Eq)]
pub enum BodyId {
    Task(u16),
    Top(u16),
    Bottom(u16),
}
