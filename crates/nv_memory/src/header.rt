//! The addresses of the header's words.

/// The marker: 0 where no commit is under way, 1 of a task into its transaction, 2 of a unit, 3 of
/// an event.
pub const MARK: u16 = 0;

/// The task to run, or `HALT`.
pub const CURRENT: u16 = 1;

/// The place after the commit under way.
pub const NEXT: u16 = 2;

/// 1 where a transaction is open.
pub const OPEN: u16 = 3;

/// The length of the task log.
pub const TASK_LENGTH: u16 = 4;

/// The length of the transaction log.
pub const TX_LENGTH: u16 = 5;

/// The position of the oldest entry.
pub const HEAD: u16 = 6;

/// The position after the entry under commit.
pub const HEAD_NEXT: u16 = 7;

/// The position after the newest accepted entry.
pub const TAIL: u16 = 8;

/// 1 where the open transaction is aborted.
pub const DOOM: u16 = 9;

/// The first task of the open transaction.
pub const FIRST: u16 = 10;

/// 0 for `split`, 1 for `buffi`.
pub const MODE: u16 = 11;

/// How many words the header has.
pub const WORDS: u16 = 12;
