/// The bounds of a program, in machine steps.
#[derive(Clone, Copy, Debug, PartialEq, Eq)]
pub struct Bounds {
    /// One attempt at a unit, with its start.
    pub c: u32,
    /// The writes of one commit or one undo.
    pub a: u32,
    /// A power period that suffices for a unit to commit, whatever the buffer holds.
    pub b: u32,
    /// One handler.
    pub h: u32,
}
