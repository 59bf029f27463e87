/// How a name stands in a program.
#[derive(Clone, Copy, Debug, PartialEq, Eq)]
pub(crate) enum Role {
    /// It is declared.
    Declared,
    /// It is read or assigned.
    Plain,
    /// An item of it is read or assigned.
    Item,
    /// A `next` goes to it.
    Next,
}
