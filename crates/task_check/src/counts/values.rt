ghost use Rattle.std.specs.Prelude.{◌≡◌, flat_map};
ghost use Rattle.task_check.specs.Counts.{bad_count_places, bad_var, init_fits, length_fits};
ghost use Rattle.task_check.specs.Least.{IsLeastOf, least};

use crate::least::{least_among, lesser, place_unless};
use crate::rules::{BodyRule, least_in_bodies};
use coati_word::limits::ARRAY_WORDS;
use task_syntax::{Init, Program, Var};

/// Rule 4: the variable whose length or values don't fit, or the loop whose count doesn't.
pub(crate) fn bad_count(program: &Program) -> Option<u32>
    ensures { IsLeastOf (bad_count_places program.now) result }
{
    let variables = bad_variables(program.vars.as_slice());
    lesser(variables, least_in_bodies(BodyRule::BadCount, program))
}

fn bad_variables(vars: &[Var]) -> Option<u32>
    ensures { result ≡ least (flat_map bad_var vars.now) }
{
    least_among(vars, bad_variable)
}

fn bad_variable(var: &Var) -> Option<u32>
    ensures { result ≡ least (bad_var var.now) }
{
    let fits = length_fits(var.length) && init_fits(var.length, &var.init);
    place_unless(fits, var.name.at)
}

/// Whether the variable is a scalar, or an array of 1 to 256 words.
fn length_fits(length: Option<u16>) -> bool
    ensures { result ≡ length_fits length }
{
    match length {
        None => true,
        Some(length) => (1..=ARRAY_WORDS).contains(&length),
    }
}

/// Whether a variable of this length may hold this at first.
fn init_fits(length: Option<u16>, init: &Init) -> bool
    ensures { result ≡ init_fits length init.now }
{
    match (length, init) {
        (_, Init::None) => true,
        (None, Init::One(_)) => true,
        (Some(count), Init::Many(values)) => values.len() <= usize::from(count),
        _ => false,
    }
}
