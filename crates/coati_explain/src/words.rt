ghost use Rattle.std.specs.Prelude.{◌≡◌, ◌++◌, OnOk};
ghost use Rattle.coati_explain.specs.Words.{wording};

use crate::message::Message;
use crate::shown::{put_around, put_quoted};
use coati_top::{put, put_number};
use coati_word::OutOfMemory;

/// A message with what it tells of: the word that stands at the place, and the word before it.
#[derive(Clone, Copy)]
pub(crate) struct Said<'a> {
    pub(crate) message: Message,
    pub(crate) word: &'a [u8],
    pub(crate) before: &'a [u8],
}

/// Appends the words of a message.
pub(crate) fn put_words(out: &mut Vec<u8>, said: Said<'_>) -> Result<(), OutOfMemory>
    ensures { OnOk result (out.new.items ≡ out.old.items
        ++ wording said.entry.message said.entry.word.now said.entry.before.now) }
{
    match said.message {
        Message::StrangeByte => put_around(out, b"no token starts with ", said.word, b""),
        Message::UnprintableByte(byte) => put_number(
            out,
            b"no token starts with the byte",
            u32::from(byte),
        ),
        Message::ByteOrderMark => put(out, b"a byte order mark stands in front of the source"),
        Message::GreatNumber => put_around(out, b"", said.word, b" is above 65535"),
        Message::NumberIntoLetter => put_around(
            out,
            b"",
            said.word,
            b" is a number that runs into a letter",
        ),
        Message::NoTokens => put(out, b"the source says nothing"),
        Message::NoBeginning => put_around(out, b"no program begins with ", said.word, b""),
        Message::NoGoingOn => put_going_on(out, said),
        Message::EndsEarly => put_around(
            out,
            b"the source ends too early, behind ",
            said.before,
            b"",
        ),
        Message::ManyBrackets => put_around(out, b"", said.word, b" is the 65th open bracket"),
        Message::ManyOperators => put_around(
            out,
            b"",
            said.word,
            b" is the 17th operator of its expression",
        ),
        Message::TwiceNamed => put_around(out, b"", said.word, b" is declared twice"),
        Message::Unknown => put_around(out, b"", said.word, b" is not declared"),
        Message::WrongKind => put_around(out, b"", said.word, b" is used as what it is not"),
        Message::BadCount => put_around(out, b"the count of ", said.word, b" is out of its range"),
        Message::BadBuffer => put_around(out, b"no buffer has room for ", said.word, b" postings"),
        Message::TooManyWords => put_around(
            out,
            b"with ",
            said.word,
            b" the variables have more than 256 words",
        ),
        Message::TooManyTasks => put_around(out, b"", said.word, b" is one too many"),
        Message::NoEnding => put_around(out, b"the body of ", said.word, b" does not end"),
        Message::EarlyEnding => put_around(out, b"", said.word, b" stands where it may not"),
        Message::EarlyNext => put_around(
            out,
            b"the next task ",
            said.word,
            b" is named where no task may end",
        ),
        Message::IntoTx => put_around(
            out,
            b"",
            said.word,
            b" is inside a transaction and not its first task",
        ),
        Message::TopReadsNv => put_around(out, b"the top half names the variable ", said.word, b""),
        Message::GiveCount => put_around(
            out,
            b"",
            said.word,
            b" has another count of words than the bottom half has parameters",
        ),
        Message::FifthParameter => put_around(
            out,
            b"",
            said.word,
            b" is the fifth parameter of its bottom half",
        ),
        Message::LoopAssigned => put_around(
            out,
            b"",
            said.word,
            b" is the name of a loop and is assigned to",
        ),
        Message::TooManyLocals => put_around(
            out,
            b"a body of ",
            said.word,
            b" has more than 32 locals",
        ),
        Message::TooDeepStack => put_around(
            out,
            b"a body of ",
            said.word,
            b" needs more than 32 operand words",
        ),
        Message::TooLong => put_around(out, b"a body of ", said.word, b" is too long"),
        Message::BadLine => put(out, b"this line of the trace has none of the forms"),
        Message::UnknownEvent => put(out, b"this line of the trace names no event of the source"),
        Message::OutOfOrder => put(out, b"this line of the trace is out of order"),
        Message::AboveLimit => put(out, b"with this line the trace is above a limit"),
        Message::OtherFirst => put(out, b"the trace begins with another line than its limit"),
        Message::NothingSaid => put(out, b"no line behind this one says anything"),
    }
}

/// Appends the words about a token with which no program goes on behind another.
fn put_going_on(out: &mut Vec<u8>, said: Said<'_>) -> Result<(), OutOfMemory>
    ensures { OnOk result (out.new.items ≡ out.old.items
        ++ wording Message.NoGoingOn said.entry.word.now said.entry.before.now) }
{
    put_around(out, b"no program goes on with ", said.word, b" behind ")?;
    put_quoted(out, said.before)
}
