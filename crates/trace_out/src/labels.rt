//! What tells a task, a transaction or a variable word apart in a text.

ghost use Rattle.std.specs.Prelude.{◌≡◌};
ghost use Rattle.trace_out.specs.Labels.{label_text};

use task_syntax::Name;

/// A name, and which word of its variable is meant where it is that of an array.
#[derive(Clone, Copy, Drop)]
pub(crate) struct Label<'a> {
    pub(crate) name: &'a [u8],
    pub(crate) length: Option<u16>,
    pub(crate) index: u16,
}

impl<'a> Label<'a> {
    /// The label of a name alone.
    pub(crate) fn of_name(name: &'a Name) -> Label<'a>
        ensures { label_text result ≡ name.now.text }
    {
        Label {
            name: name.text.as_slice(),
            length: None,
            index: 0,
        }
    }
}
