/// How events are serialised with tasks.
#[derive(Clone, Copy, Debug, PartialEq, Eq)]
pub enum Mode {
    /// A bottom half runs between tasks, as a job of its own.
    Split,
    /// A bottom half runs in the handler, and its stores are buffered.
    Buffi,
}
