//! What follows from the definitions: each function's contract is a law, and its body is empty.

ghost use Rattle.serial_log.specs.Laws.{CommitsTellTheStand, HistoriesGoOn, LegalMarksStay};
ghost use Rattle.serial_log.specs.Laws.{LegalHistoriesKeepEachFact, MarksJoinUp};
ghost use Rattle.serial_log.specs.Laws.{RecordsKeepReadings, RestIsUnrecorded};
ghost use Rattle.serial_log.specs.Laws.{SerialRunsAgree, TurnsGoOn};

/// A legal mark behind legal marks makes legal marks, and they stand for what that mark makes of
/// the standing before.
pub fn histories_go_on()
    ensures { HistoriesGoOn }
{}

/// So do the facts of how tasks and events take turns.
pub fn turns_go_on()
    ensures { TurnsGoOn }
{}

/// Joined marks tell what their parts tell, one after another.
pub fn marks_join_up()
    ensures { MarksJoinUp }
{}

/// Readings that are added leave those of the records before, and marks stay legal.
pub fn records_keep_readings()
    ensures records { RecordsKeepReadings }
    ensures marks { LegalMarksStay }
{}

/// A legal history is a serial run over all its accepted postings, and its postings, aborts and
/// boots are legal.
pub fn legal_histories_keep_each_fact()
    ensures { LegalHistoriesKeepEachFact }
{}

/// Where postings are legal, the rest is the accepted postings that are in no record, in their
/// order.
pub fn rest_is_unrecorded()
    ensures { RestIsUnrecorded }
{}

/// A legal history's store and place are told by its records and the postings that these serve,
/// and by nothing else.
pub fn commits_tell_the_stand()
    ensures { CommitsTellTheStand }
{}

/// Two serial runs of a program without events agree as far as both go: in units, tasks and
/// readings.
pub fn serial_runs_agree()
    ensures { SerialRunsAgree }
{
    task_syntax::laws::units_run_task_by_task();
}
