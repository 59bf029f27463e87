//! What follows from the definitions: each function's contract is a law, and its body does
//! nothing.

ghost use Rattle.commit_log.specs.Laws.{CommitsGoOn, CommitsKeep, CommitsKeepTheUnit, EventsHaveFewWrites, FewWritesAreLeft, NoWriteIsLeft};

/// Each write of a commit leaves what the image stands for, and its ranges. It leaves an open unit
/// too, but for that unit's own commit.
pub fn commits_keep()
    ensures keep { CommitsKeep }
    ensures unit { CommitsKeepTheUnit }
{}

/// Commits end: each of their writes leaves fewer, of few at the start.
pub fn commits_end()
    ensures go_on { CommitsGoOn }
    ensures few { FewWritesAreLeft }
    ensures few_of_events { EventsHaveFewWrites }
    ensures none { NoWriteIsLeft }
{}
