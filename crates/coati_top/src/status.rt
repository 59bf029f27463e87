ghost use Rattle.std.specs.Prelude.{◌≡◌};
ghost use Rattle.coati_top.specs.Codes.{code_of};

use coati_board::Board;

/// How a call of the program ended.
#[derive(Clone, Copy, Debug, PartialEq, Eq)]
pub enum Status {
    Ok,
    /// The words are no command.
    Usage,
    /// The input failed while it was read.
    ReadFault,
    /// The output failed while the answer was written.
    WriteFault,
    /// The input is longer than is accepted.
    TooLarge,
    /// The source is no program that is accepted.
    Refused,
    /// The second part of the input is no trace, or no printed text.
    BadTrace,
    /// The printed text is not a serial run of the source.
    Differs,
    /// Memory was refused.
    OutOfMemory,
}

impl Status {
    /// What the program ends with.
    pub fn code(&self) -> u8
        ensures { result ≡ code_of self.now }
    {
        match self {
            Status::Ok => 0,
            Status::Usage => 2,
            Status::ReadFault => 3,
            Status::WriteFault => 4,
            Status::TooLarge => 5,
            Status::Refused => 6,
            Status::BadTrace => 7,
            Status::Differs => 8,
            Status::OutOfMemory => 9,
        }
    }
}

/// How a call ended, and the board of the run where one was made.
#[derive(Drop)]
pub struct Done {
    pub status: Status,
    pub board: Option<Board>,
}
