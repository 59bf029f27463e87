/// What is found of a printed text.
#[derive(Clone, Copy, Debug, PartialEq, Eq)]
pub enum Verdict {
    /// Each line meets its condition.
    Serial,
    /// The line of this number, counted from 1, is the first that doesn't.
    Differs(u32),
}
