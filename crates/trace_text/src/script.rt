ghost use Rattle.std.specs.Prelude.{◌≡◌, ◌+◌, ◌*◌, ◌^◌, ◌<◌, ◌++◌, true, replicate, IfOk, OnOk, Some, None};
ghost use Rattle.serial_log.specs.declared.script.Posting.{Posting};
ghost use Rattle.task_cost.specs.Limits.{handler_bound};
ghost use Rattle.task_syntax.specs.declared.program.Program.{Program};
ghost use Rattle.trace_text.specs.Answer.{IsAnswer};
ghost use Rattle.trace_text.specs.Reading.{line_reading, statement_reading, posting_statement};
ghost use Rattle.trace_text.specs.Trace.{is_within, last_time};

use crate::TraceFault;
use crate::fields::{Fields, begins_with_limit};
use crate::statement::{Statement, limit_in, statement_in};
use coati_word::OutOfMemory;
use coati_word::limits::{EXECUTOR_STEPS, MACHINE_STEPS, POSTINGS, POWER_PERIODS};
use serial_log::{Periods, Posting, Postings, Script};
use std::alloc::Global;
use task_check::Checked;

/// The script of the first line that says something: its limit alone.
pub(crate) fn with_limit(
    alloc: Global,
    checked: &Checked,
    number: u32,
    line: &[u8],
) -> Result<Script, TraceFault>
    ensures read { IsAnswer result (line_reading checked.now number None line.now) }
    ensures within { IfOk result (λ script. is_within checked.now script ≡ true) }
{
    if !begins_with_limit(line) {
        return Err(TraceFault::NoLimit);
    }
    match limit_in(&mut Fields::behind_first_word(line)) {
        None => Err(TraceFault::BadLine(number)),
        Some(limit) if limit > EXECUTOR_STEPS => Err(TraceFault::TooMany(number)),
        Some(limit) => Ok(Script {
            limit,
            power: Periods::new(alloc),
            postings: Postings::new(alloc),
        }),
    }
}

/// The script with what one more line tells.
pub(crate) fn with_line(
    checked: &Checked,
    handler: u32,
    script: Script,
    number: u32,
    line: &[u8],
) -> Result<Script, TraceFault>
    requires handler { handler ≡ handler_bound checked.now }
    requires within { is_within checked.now script ≡ true }
    ensures read { IsAnswer result (line_reading checked.now number (Some script) line.now) }
    ensures within { IfOk result (λ script. is_within checked.now script ≡ true) }
{
    match statement_in(checked, line) {
        None => Err(TraceFault::BadLine(number)),
        Some(Statement::Limit(_)) => Err(TraceFault::Order(number)),
        Some(Statement::Power { period, times }) => {
            with_periods(checked, script, number, period, times)
        }
        Some(Statement::At { event: None, .. }) => Err(TraceFault::Unknown(number)),
        Some(
            Statement::At {
                time,
                device,
                event: Some(event),
                argument,
            },
        ) => {
            let posting = Posting {
                time,
                device,
                event,
                argument,
            };
            with_posting(checked, handler, script, number, posting)
        }
    }
}

/// The script with more power periods, each of this many machine steps.
fn with_periods(
    checked: &Checked,
    mut script: Script,
    number: u32,
    period: u32,
    times: u32,
) -> Result<Script, TraceFault>
    requires within { is_within checked.now script ≡ true }
    ensures read { IsAnswer result
        (statement_reading checked.now number (Some script) (Statement.Power period times)) }
    ensures within { IfOk result (λ script. is_within checked.now script ≡ true) }
{
    if !script.postings.as_slice().is_empty() {
        return Err(TraceFault::Order(number));
    }
    // No memory is taken for periods that are too many.
    let periods = script.power.as_slice().len() as u64 + u64::from(times);
    if periods > POWER_PERIODS as u64 {
        return Err(TraceFault::TooMany(number));
    }
    add_periods(&mut script.power, period, times).map_err(|_| TraceFault::OutOfMemory)?;
    Ok(script)
}

/// Adds a period so many times.
fn add_periods(power: &mut Periods, period: u32, times: u32) -> Result<(), OutOfMemory>
    ensures { OnOk result (power.new ≡ power.old ++ replicate times period) }
{
    for _ in 0..times {
        power.push(period)?;
    }
    Ok(())
}

/// The script with one more posting.
fn with_posting(
    checked: &Checked,
    handler: u32,
    mut script: Script,
    number: u32,
    posting: Posting,
) -> Result<Script, TraceFault>
    requires handler { handler ≡ handler_bound checked.now }
    requires within { is_within checked.now script ≡ true }
    ensures read { IsAnswer result
        (statement_reading checked.now number (Some script) (posting_statement posting)) }
    ensures within { IfOk result (λ script. is_within checked.now script ≡ true) }
{
    let postings = script.postings.as_slice();
    if posting.time < last_time(postings) {
        return Err(TraceFault::Order(number));
    }
    let count = postings.len() + 1;
    if count > POSTINGS || run_bound(script.limit, handler, count) > u64::from(MACHINE_STEPS) {
        return Err(TraceFault::TooMany(number));
    }
    script
        .postings
        .push(posting)
        .map_err(|_| TraceFault::OutOfMemory)?;
    Ok(script)
}

/// The time of the last of these postings, 0 where there is none.
fn last_time(postings: &[Posting]) -> u32
    ensures { result ≡ last_time postings.now }
{
    match postings {
        [] => 0,
        [.., last] => last.time,
    }
}

/// The greatest count of machine steps of a run.
fn run_bound(limit: u32, handler: u32, postings: usize) -> u64
    requires { postings < 2 ^ 31 }
    ensures { result ≡ limit + handler * postings }
{
    u64::from(limit) + u64::from(handler) * postings as u64
}
