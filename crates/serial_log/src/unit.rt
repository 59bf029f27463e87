/// What commits as a whole, by its number.
#[derive(Clone, Copy, Debug, PartialEq, Eq)]
pub enum Unit {
    Task(u16),
    Transaction(u16),
    Event(u16),
}
