/// Which device raised a posting, which of its postings it is, and what it posts.
#[derive(Clone, Copy)]
pub(crate) struct Raised {
    pub(crate) device: u8,
    pub(crate) index: u32,
    pub(crate) event: u16,
    pub(crate) argument: u16,
}
