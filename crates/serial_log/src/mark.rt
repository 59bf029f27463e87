use crate::abort::AbortOf;
use crate::end::End;
use crate::posted::Posted;
use crate::record::Record;

/// What happened.
#[derive(Clone, Copy, Debug, PartialEq, Eq)]
pub enum MarkKind {
    /// The power came back, for this time.
    Boot(u32),
    Posted(Posted),
    /// This task of a transaction is done, and the transaction goes on.
    Done(u16),
    Commit(Record),
    Abort(AbortOf),
    End(End),
}

/// What happened, and when.
#[derive(Clone, Copy, Debug, PartialEq, Eq)]
pub struct Mark {
    /// The clock, in machine steps.
    pub at: u32,
    pub kind: MarkKind,
}

// The longest histories keep some millions of marks in memory.
const _: () = prove!(size_of::<Mark>() <= 32);
