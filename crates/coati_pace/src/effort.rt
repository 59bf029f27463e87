//! What the bound on progress reads of a device.

/// How large a device is.
#[derive(Clone, Copy, Debug, PartialEq, Eq)]
pub struct Shape {
    /// Variable words.
    pub words: u32,
    /// Postings that the buffer holds.
    pub slots: u32,
    /// Machine steps of one attempt, with its start.
    pub attempt: u32,
}

/// Where the program stands once the writes under way are made.
#[derive(Clone, Copy, Debug, PartialEq, Eq)]
pub enum Place {
    /// No task is left.
    Halted,
    /// Between units.
    Outside,
    /// In an open transaction.
    Inside,
}

/// What the executor is about.
#[derive(Clone, Copy, Debug, PartialEq, Eq)]
pub enum Stage {
    /// Memory alone tells what is next. So many writes empty the log and the flags of the next
    /// task. The oldest held event is begun where its first write is made: in mode split its log
    /// is empty, in mode buffi the position behind the head is written.
    Chooses { cleaning: u32, begun: bool },
    /// The machine runs a task, and so many steps come before the one that ends it.
    RunsTask { left: u32 },
    /// A task has ended. The place behind it may be written; the oldest held event may be begun.
    EndsTask { placed: bool, begun: bool },
    /// The machine runs a bottom half, and so many steps come before the one that ends it.
    RunsBottom { left: u32 },
    /// A bottom half has ended. The position behind the head may be written.
    EndsBottom { begun: bool },
}

/// What is to be done before the next task ends.
#[derive(Clone, Copy, Debug, PartialEq, Eq)]
pub struct Effort {
    /// The writes that are left of the commit or undo under way, at most.
    pub writes: u32,
    /// Held postings.
    pub held: u32,
    pub place: Place,
    pub stage: Stage,
}
