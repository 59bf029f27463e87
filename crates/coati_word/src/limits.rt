//! The greatest sizes that are accepted.

/// Bytes of an input.
pub const INPUT_BYTES: usize = 262_144;

/// Variable words of a program.
pub const VARIABLE_WORDS: u16 = 256;

/// Words of an array.
pub const ARRAY_WORDS: u16 = 256;

/// Turns of a loop.
pub const LOOP_TURNS: u16 = 50_000;

/// Tasks of a program, members of transactions among them.
pub const TASKS: u16 = 64;

/// Events of a program.
pub const EVENTS: u16 = 16;

/// Transactions of a program.
pub const TRANSACTIONS: u16 = 16;

/// Postings that a declared buffer may hold.
pub const BUFFER: u16 = 32;

/// Postings that the buffer holds where none is declared.
pub const DEFAULT_BUFFER: u16 = 8;

/// Words of a message from a top half to its bottom half.
pub const MESSAGE_WORDS: usize = 4;

/// Locals of a body.
pub const LOCALS: usize = 32;

/// Operand words of a body.
pub const OPERANDS: usize = 32;

/// Cost of a body in machine steps, and its code in words.
pub const BODY_COST: u32 = 50_000;

/// Brackets that may be open at once.
pub const OPEN_BRACKETS: usize = 64;

/// Binary operators of one expression, those inside its brackets not counted.
pub const BINARY_OPERATORS: usize = 16;

/// Executor steps of a run.
pub const EXECUTOR_STEPS: u32 = 500_000;

/// Devices that raise postings, numbered from 0.
pub const DEVICES: u8 = 8;

/// Postings of a trace.
pub const POSTINGS: usize = 4_096;

/// Power periods of a trace.
pub const POWER_PERIODS: usize = 4_096;

/// Machine steps of one power period.
pub const PERIOD_STEPS: u32 = 4_000_000;

/// Machine steps of a run: the limit, and a handler for each posting.
pub const MACHINE_STEPS: u32 = 4_000_000;

/// Words of an image of nonvolatile memory.
pub const IMAGE_WORDS: u16 = 18_898;

/// The place after which no task runs.
pub const HALT: u16 = 65_535;
