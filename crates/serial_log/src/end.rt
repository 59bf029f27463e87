/// How a run ended.
#[derive(Clone, Copy, Debug, PartialEq, Eq)]
pub enum End {
    /// Nothing was left to do.
    Idle,
    /// The limit of steps was reached.
    Limit,
}
