use crate::abort::AbortOf;
use crate::posted::Posted;
use crate::record::Record;

/// A printed mark. A task that is done within its transaction isn't printed, nor is the time of a
/// commit or an abort.
#[derive(Clone, Copy, Debug, PartialEq, Eq)]
pub enum Line {
    Boot { number: u32, at: u32 },
    Post { at: u32, posted: Posted },
    Commit(Record),
    Abort(AbortOf),
}
