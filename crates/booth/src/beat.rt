/// What became of a turn of the executor.
#[derive(Clone, Copy, Debug, PartialEq, Eq)]
pub enum Beat {
    /// A step was made.
    Stepped,
    /// Nothing is left to do, and no posting is left to raise.
    Idle,
    /// As many steps are made as the script allows.
    Spent,
}
