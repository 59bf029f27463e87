ghost use Rattle.std.specs.Prelude.{◌≡◌, flat_map, is_some};
ghost use Rattle.std.specs.List.{list_any};
ghost use Rattle.std.specs.Str.{bytes_eq};
ghost use Rattle.task_syntax.specs.Names.{words_of};
ghost use Rattle.task_check.specs.Least.{IsLeastOf, least};
ghost use Rattle.task_check.specs.Tops.{in_expression, in_expressions, in_place, named_in_block, named_step, top_reads_nv_places, variable_at};
ghost use Rattle.task_check.specs.Within.{bare};

use crate::least::{least_among, lesser};
use crate::within::least_within;
use task_syntax::{Event, Expr, Name, NameText, Place, Program, Stmt, Var};

/// Rule 11: the least name of a variable in a top half.
#[tactic(auto, using(crate::proofs::LeastParts::IsLeastOf_least))]
pub(crate) fn least_variable_in_top(program: &Program) -> Option<u32>
    ensures { IsLeastOf (top_reads_nv_places program.now) result }
{
    least_in_events(program, program.events.as_slice())
}

fn least_in_events(program: &Program, events: &[Event]) -> Option<u32>
    ensures { result ≡ least (flat_map (λ event. named_in_block program.now event.top)
        events.now) }
{
    least_among(
        events,
        |event| named_in_block(program, event.top.as_slice()),
    )
}

/// The least variable that a block names.
fn named_in_block(program: &Program, block: &[Stmt]) -> Option<u32>
    ensures { result ≡ least (named_in_block program.now block.now) }
{
    least_within(block, &|statement| named_in(program, statement))
}

/// The least variable that a statement names outside its blocks.
fn named_in(program: &Program, statement: &Stmt) -> Option<u32>
    ensures { result ≡ least (named_step program.now (bare statement.now)) }
{
    match statement {
        Stmt::Let(_, value) => in_expression(program, value),
        Stmt::Assign(place, value) => {
            lesser(in_place(program, place), in_expression(program, value))
        }
        Stmt::If(condition, _, _) => in_expression(program, condition),
        Stmt::Give(values, _) => in_expressions(program, values.as_slice()),
        Stmt::Repeat(_, _, _) | Stmt::Next(_) | Stmt::Halt(_) => None,
    }
}

fn in_expressions(program: &Program, values: &[Expr]) -> Option<u32>
    ensures { result ≡ least (in_expressions program.now values.now) }
{
    least_among(values, |value| in_expression(program, value))
}

#[cycle(expression)]
fn in_expression(program: &Program, value: &Expr) -> Option<u32>
    ensures { result ≡ least (in_expression program.now value.now) }
{
    match value {
        Expr::Num(_) => None,
        Expr::Get(place) => in_place(program, place),
        Expr::One(_, operand) => in_expression(program, operand.get()),
        Expr::Two(_, left, right) => {
            let left = in_expression(program, left.get());
            lesser(left, in_expression(program, right.get()))
        }
    }
}

#[cycle(expression)]
fn in_place(program: &Program, place: &Place) -> Option<u32>
    ensures { result ≡ least (in_place program.now place.now) }
{
    match place {
        Place::Plain(name) => variable_at(program, name),
        Place::Item(name, index) => {
            let index = in_expression(program, index.get());
            lesser(variable_at(program, name), index)
        }
    }
}

/// The place of a name, where it is a variable's.
fn variable_at(program: &Program, name: &Name) -> Option<u32>
    ensures { result ≡ least (variable_at program.now name.now) }
{
    is_variable(program, &name.text).then_some(name.at)
}

/// Whether the name is a variable's.
fn is_variable(program: &Program, name: &NameText) -> bool
    ensures { result ≡ is_some (words_of program.now name.now) }
{
    has_name(program.vars.as_slice(), name)
}

/// Whether one of these variables has the name.
fn has_name(vars: &[Var], name: &NameText) -> bool
    ensures { result ≡ list_any (λ var. bytes_eq var.name.text name.now) vars.now }
{
    vars.iter().any(|var| var.name.text == *name)
}
