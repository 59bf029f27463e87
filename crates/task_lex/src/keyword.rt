ghost use Rattle.std.specs.Prelude.{◌≡◌, ◌≢◌, MatchOption};
ghost use Rattle.task_lex.specs.Spelling.{keyword_text};

/// A word of the language, which is no name.
#[derive(Clone, Copy, Debug, PartialEq, Eq)]
pub enum Keyword {
    Nv,
    Buffer,
    Event,
    Top,
    Bottom,
    Transaction,
    Task,
    Let,
    If,
    Else,
    Repeat,
    Next,
    Halt,
    Give,
}

/// The keyword that is spelled so.
pub(crate) fn keyword_of(word: &[u8]) -> Option<Keyword>
    ensures { MatchOption result ((keyword : Keyword) → keyword_text keyword ≢ word.now)
        (λ keyword. keyword_text keyword ≡ word.now) }
{
    match word {
        b"nv" => Some(Keyword::Nv),
        b"buffer" => Some(Keyword::Buffer),
        b"event" => Some(Keyword::Event),
        b"top" => Some(Keyword::Top),
        b"bottom" => Some(Keyword::Bottom),
        b"transaction" => Some(Keyword::Transaction),
        b"task" => Some(Keyword::Task),
        b"let" => Some(Keyword::Let),
        b"if" => Some(Keyword::If),
        b"else" => Some(Keyword::Else),
        b"repeat" => Some(Keyword::Repeat),
        b"next" => Some(Keyword::Next),
        b"halt" => Some(Keyword::Halt),
        b"give" => Some(Keyword::Give),
        _ => None,
    }
}
