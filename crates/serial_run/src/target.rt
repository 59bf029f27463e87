use task_syntax::NameText;

/// Where a place is: a local, or a variable's word.
#[derive(Clone, Copy)]
pub(crate) enum Target<'a> {
    Local(&'a NameText),
    Word(u16),
}
