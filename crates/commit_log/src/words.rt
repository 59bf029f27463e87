//! The writes of fixed words that commits make.

use nv_memory::{Write, header};

/// The transaction log is empty.
pub const TX_EMPTIED: Write = Write {
    at: header::TX_LENGTH,
    word: 0,
};

/// The task log is empty.
pub const TASK_EMPTIED: Write = Write {
    at: header::TASK_LENGTH,
    word: 0,
};

/// A transaction is open.
pub const OPENED: Write = Write {
    at: header::OPEN,
    word: 1,
};

/// No transaction is open.
pub const CLOSED: Write = Write {
    at: header::OPEN,
    word: 0,
};

/// No commit is under way.
pub const MARK_CLEARED: Write = Write {
    at: header::MARK,
    word: 0,
};
