/// What a name stands for.
#[derive(Clone, Copy, Debug, PartialEq, Eq)]
pub(crate) enum Meaning {
    /// A variable of one word.
    Scalar,
    Array,
    Event,
    Task,
    Transaction,
    /// An argument, a parameter, a `let` or a loop's name.
    Local,
}
