ghost use Rattle.std.specs.Prelude.{◌≡◌};
ghost use Rattle.trace_text.specs.Fields.{fields_of};
ghost use Rattle.trace_text.specs.Reading.{at_of, limit_of, power_of, powers_of, statement_of};

use crate::fields::{Fields, first_word};
use crate::number::number_in;
use coati_word::limits::{DEVICES, PERIOD_STEPS};
use task_check::Checked;

/// What a line of a trace says.
#[derive(Clone, Copy, Debug, PartialEq, Eq)]
pub enum Statement {
    /// The executor makes at most so many steps.
    Limit(u32),
    /// So many power periods follow, each of this many machine steps.
    Power {
        period: u32,
        times: u32,
    },
    /// A device makes a posting. The event has no number where the program has none of its name.
    At {
        time: u32,
        device: u8,
        event: Option<u16>,
        argument: u16,
    },
}

/// What the line says; none where it has none of the forms.
pub(crate) fn statement_in(checked: &Checked, line: &[u8]) -> Option<Statement>
    ensures { result ≡ statement_of checked.now (fields_of line.now) }
{
    let mut fields = Fields::behind_first_word(line);
    match first_word(line) {
        b"limit" => Some(Statement::Limit(limit_in(&mut fields)?)),
        b"power" => power_in(&mut fields),
        b"at" => posting_in(checked, &mut fields),
        _ => None,
    }
}

/// The limit that the fields behind the word `limit` tell.
pub(crate) fn limit_in(fields: &mut Fields<'_>) -> Option<u32>
    ensures { result ≡ limit_of fields.old }
{
    let limit = fields.next()?;
    match fields.next() {
        None => number_in(0, u32::MAX, limit),
        Some(_) => None,
    }
}

/// What the fields behind the word `power` say.
fn power_in(fields: &mut Fields<'_>) -> Option<Statement>
    ensures { result ≡ powers_of fields.old }
{
    let period = fields.next()?;
    match (fields.next(), fields.next(), fields.next()) {
        (None, _, _) => power(period, 1),
        (Some(b"times"), Some(times), None) => power(period, number_in(1, u32::MAX, times)?),
        _ => None,
    }
}

/// So many power periods, the length of which the field tells.
fn power(period: &[u8], times: u32) -> Option<Statement>
    ensures { result ≡ power_of period.now times }
{
    let period = number_in(1, PERIOD_STEPS, period)?;
    Some(Statement::Power { period, times })
}

/// What the fields behind the word `at` say.
fn posting_in(checked: &Checked, fields: &mut Fields<'_>) -> Option<Statement>
    ensures { result ≡ at_of checked.now fields.old }
{
    let time = fields.next()?;
    let device = fields.next()?;
    let event = fields.next()?;
    let argument = fields.next()?;
    if event.is_empty() || fields.next().is_some() {
        return None;
    }
    Some(Statement::At {
        time: number_in(0, u32::MAX, time)?,
        device: number_in(0, u32::from(DEVICES) - 1, device)? as u8,
        event: checked.event_named(event),
        argument: number_in(0, u32::from(u16::MAX), argument)? as u16,
    })
}
