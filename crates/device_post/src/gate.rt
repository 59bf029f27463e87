/// Whose turn it was.
#[derive(Clone, Copy, Debug, PartialEq, Eq)]
pub enum Who {
    Executor,
    /// The device of this number.
    Device(u8),
}

/// What comes between two turns of a thread.
pub trait Gate {
    /// `turn` turns of `who` are over, the last one just now; where it posted nothing or made no
    /// step it counts too.
    fn between(&self, who: Who, turn: u32);
}

/// A gate that holds nobody.
pub struct OpenGate;

impl Gate for OpenGate {
    fn between(&self, _who: Who, _turn: u32) {}
}
