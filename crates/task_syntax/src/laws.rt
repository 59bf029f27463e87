//! What follows from the definitions: each function's contract is a law, and its body is empty.

ghost use Rattle.std.specs.Prelude.{ℕ};
ghost use Rattle.coati_word.specs.declared.ending.Ending.{Ending};
ghost use Rattle.task_syntax.specs.Statements.{Way};
ghost use Rattle.task_syntax.specs.CourseLaws.{AccessesJoinUp, ChainingIsAssociative, ChainsRunInTurn, ChainsUnderWayGoOn, CoursesUnderWayGoOn, LastWritesTellTheStore, ReadingsTellTheStore, SharedReadsDecide, UnwrittenWordsStay, WrittenWordsAreTold};
ghost use Rattle.task_syntax.specs.ProgramLaws.{BodiesTouchVariables, EventsTouchVariables, ExpressionsOnlyRead, ExpressionsTouchVariables, SharedReadsDecideUnits, SharedReadsDecideWholeUnits, StatementsTouchVariables, UnitsAreWholeOnce, UnitsRunTaskByTask, UnitsTouchVariables};

/// A chain of courses runs its parts in turn, each on the store that those before it left.
pub fn chains_run_in_turn()
    ensures operands { ChainsRunInTurn ℕ ℕ }
    ensures expression_first { ChainsRunInTurn ℕ Way }
    ensures statements { ChainsRunInTurn Way Way }
    ensures body { ChainsRunInTurn Way Ending }
{}

/// Which of two chainings is done first doesn't matter.
pub fn chaining_is_associative()
    ensures operands { ChainingIsAssociative ℕ ℕ ℕ }
    ensures expressions_first { ChainingIsAssociative ℕ ℕ Way }
    ensures expression_first { ChainingIsAssociative ℕ Way Way }
    ensures statements { ChainingIsAssociative Way Way Way }
    ensures body { ChainingIsAssociative Way Way Ending }
{}

/// Joined accesses leave, read, write and share what their parts do, one after another.
pub fn accesses_join_up()
    ensures { AccessesJoinUp }
{}

/// A word that none of the accesses writes keeps its value.
pub fn unwritten_words_stay()
    ensures { UnwrittenWordsStay }
{}

/// A word holds the last value that is written to it, whatever the store held before.
pub fn last_writes_tell_the_store()
    ensures { LastWritesTellTheStore }
{}

/// A word is written where it stands among the written words, and there alone it has a last value.
pub fn written_words_are_told()
    ensures { WrittenWordsAreTold }
{}

/// A reading tells what the store holds at its moment.
pub fn readings_tell_the_store()
    ensures expressions { ReadingsTellTheStore ℕ }
    ensures statements { ReadingsTellTheStore Way }
    ensures bodies { ReadingsTellTheStore Ending }
{}

/// Where a course has come, what is left of it goes on as the whole does, also on another store
/// that holds the same in the words that were read before they were written.
pub fn courses_under_way_go_on()
    ensures expressions { CoursesUnderWayGoOn ℕ }
    ensures statements { CoursesUnderWayGoOn Way }
    ensures bodies { CoursesUnderWayGoOn Ending }
{}

/// A chain of courses comes as far as its first part does, and past its end to the second part.
pub fn chains_under_way_go_on()
    ensures operands { ChainsUnderWayGoOn ℕ ℕ }
    ensures expression_first { ChainsUnderWayGoOn ℕ Way }
    ensures statements { ChainsUnderWayGoOn Way Way }
    ensures bodies { ChainsUnderWayGoOn Way Ending }
    ensures expression_in_body { ChainsUnderWayGoOn ℕ Ending }
{}

/// What a course does, and what tasks of a unit do, hangs only on the words that they read before
/// they write them: two stores that agree on these give the same readings, written values and
/// shared reads, and each task the same ending.
pub fn shared_reads_decide()
    ensures expressions { SharedReadsDecide ℕ }
    ensures statements { SharedReadsDecide Way }
    ensures bodies { SharedReadsDecide Ending }
    ensures units { SharedReadsDecideUnits }
    ensures whole_units { SharedReadsDecideWholeUnits }
{}

/// An expression writes nothing.
pub fn expressions_only_read()
    ensures { ExpressionsOnlyRead }
{}

/// Where no array is empty, only the variable words of a program are touched, and no word beyond
/// them matters.
pub fn variables_alone_are_touched()
    ensures expressions { ExpressionsTouchVariables }
    ensures statements { StatementsTouchVariables }
    ensures bodies { BodiesTouchVariables }
    ensures events { EventsTouchVariables }
    ensures units { UnitsTouchVariables }
{}

/// The tasks of a unit run one by one, each on what those before it left, until the unit has
/// ended.
pub fn units_run_task_by_task()
    ensures tasks { UnitsRunTaskByTask }
    ensures whole_once { UnitsAreWholeOnce }
{}
