ghost use Rattle.std.specs.Prelude.{◌≡◌};
ghost use Rattle.coati_explain.specs.Asked.{asked_of};

use crate::message::Message;

/// What is asked where the message is told, and where that stands in the documents.
pub(crate) fn asked_of(message: Message) -> &'static [u8]
    ensures { result.now ≡ asked_of message }
{
    match message {
        Message::StrangeByte | Message::UnprintableByte(_) =>
            b"outside comments a source is names, numbers, signs and blanks, in ASCII (docs/LANGUAGE.md, Text)",
        Message::ByteOrderMark =>
            b"save the source without the mark: it is plain ASCII (docs/LANGUAGE.md, Text)",
        Message::GreatNumber => b"a number is at most 65535 (docs/LANGUAGE.md, Text)",
        Message::NumberIntoLetter =>
            b"no letter and no `_` follows a number directly, and no name begins with a digit (docs/LANGUAGE.md, Text)",
        Message::NoTokens | Message::NoBeginning =>
            b"a source declares its variables, then its buffer, then its events, and then its tasks and transactions (docs/LANGUAGE.md, Text)",
        Message::NoGoingOn | Message::EndsEarly =>
            b"a source follows the grammar (docs/FORMATS.md, The grammar)",
        Message::ManyBrackets =>
            b"at most 64 brackets are open at once, those round blocks and lists too (docs/LANGUAGE.md, Limits)",
        Message::ManyOperators =>
            b"an expression has at most 16 binary operators, without those inside its brackets (docs/LANGUAGE.md, Limits)",
        Message::TwiceNamed =>
            b"variables, events, tasks and transactions have names of their own, and a local has one that nothing in scope has (docs/LANGUAGE.md, Rules, 1)",
        Message::Unknown =>
            b"a used name is that of a variable, a task or a local in scope (docs/LANGUAGE.md, Rules, 2)",
        Message::WrongKind =>
            b"an index stands behind arrays alone, a name without one is a scalar or a local, and `next` names a task (docs/LANGUAGE.md, Rules, 3)",
        Message::BadCount =>
            b"an array has 1 to 256 words and no single number or longer list, a scalar has no list, and a loop has 1 to 50000 turns (docs/LANGUAGE.md, Rules, 4)",
        Message::BadBuffer =>
            b"a buffer has room for 1 to 32 postings (docs/LANGUAGE.md, Rules, 5)",
        Message::TooManyWords =>
            b"all variables together have at most 256 words (docs/LANGUAGE.md, Rules, 6)",
        Message::TooManyTasks =>
            b"a source has at most 64 tasks, 16 events and 16 transactions (docs/LANGUAGE.md, Rules, 7)",
        Message::NoEnding =>
            b"a task and a top half end with an ending, or with an `if` of which both blocks do (docs/LANGUAGE.md, Rules, 8)",
        Message::EarlyEnding | Message::EarlyNext =>
            b"an ending stands last in its body, or last in both blocks of an `if` that does: `next` or `halt` in a task, `give` in a top half (docs/LANGUAGE.md, Rules, 9)",
        Message::IntoTx =>
            b"from outside a transaction `next` names its first task alone (docs/LANGUAGE.md, Rules, 10)",
        Message::TopReadsNv =>
            b"a top half sees the posted word and its own locals, and no variable (docs/LANGUAGE.md, Rules, 11)",
        Message::GiveCount | Message::FifthParameter =>
            b"a bottom half has at most four parameters, and each `give` of its top half as many words (docs/LANGUAGE.md, Rules, 12)",
        Message::LoopAssigned =>
            b"the name of a loop is read and not assigned to (docs/LANGUAGE.md, Rules, 13)",
        Message::TooManyLocals =>
            b"a body has at most 32 locals: what it takes, each `let` and each loop (docs/LANGUAGE.md, Rules, 14)",
        Message::TooDeepStack =>
            b"a body needs at most 32 operand words: `let` splits an expression that nests deep (docs/LANGUAGE.md, Rules, 15)",
        Message::TooLong =>
            b"a body costs at most 50000 machine steps and has at most 50000 words of code (docs/LANGUAGE.md, Rules, 16)",
        Message::BadLine =>
            b"a line is `limit L`, `power P`, `power P times M` or `at T D EVENT A`, with one space between two fields and each number in its range (docs/FORMATS.md, The trace)",
        Message::UnknownEvent =>
            b"an `at` line names an event of the source (docs/FORMATS.md, The trace)",
        Message::OutOfOrder =>
            b"the limit comes first and once, then the power periods, then the postings in the order of their times (docs/FORMATS.md, The trace)",
        Message::AboveLimit =>
            b"a limit is at most 500000, a trace has at most 4096 periods and 4096 postings, and it takes at most 4000000 machine steps (docs/FORMATS.md, The trace)",
        Message::OtherFirst | Message::NothingSaid =>
            b"a trace begins with `limit L`; an empty line and one that begins with `#` say nothing (docs/FORMATS.md, The trace)",
    }
}
