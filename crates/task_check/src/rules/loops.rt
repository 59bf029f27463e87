ghost use Rattle.std.specs.Prelude.{◌≡◌, [], ◌∷◌, flat_map};
ghost use Rattle.task_check.specs.Assignments.{assigned_by_loop, assigns_step, block_assigns_to};
ghost use Rattle.task_check.specs.BodyRules.{read};
ghost use Rattle.task_check.specs.Least.{least};
ghost use Rattle.task_check.specs.Loops.{assigned_in_block, loop_assigned, place_among, plain_name};
ghost use Rattle.task_check.specs.Within.{bare};

use super::body::Body;
use crate::within::least_within;
use task_syntax::{NameText, Place, Stmt};

/// The least assigned name of a body that is an enclosing loop's.
pub(crate) fn loop_assigned(body: &Body<'_>) -> Option<u32>
    ensures { result ≡ least (loop_assigned (read body.now)) }
{
    assigned_in_block(body.statements)
}

/// The least assigned name in a block that is the name of a loop of this block.
fn assigned_in_block(block: &[Stmt]) -> Option<u32>
    ensures { result ≡ least (assigned_in_block block.now []) }
{
    least_within(block, &assigned_by_loop)
}

/// The least assignment in a loop to its own name.
fn assigned_by_loop(statement: &Stmt) -> Option<u32>
    ensures { result ≡ least (assigned_by_loop statement.now) }
{
    match statement {
        Stmt::Repeat(name, _, block) => block_assigns_to(block.as_slice(), &name.text),
        _ => None,
    }
}

/// The least assignment to a name in a block.
fn block_assigns_to(block: &[Stmt], text: &NameText) -> Option<u32>
    ensures { result ≡ least (block_assigns_to text.now block.now) }
{
    least_within(block, &|statement| assigns_to(statement, text))
}

/// The place of an assignment to a name.
fn assigns_to(statement: &Stmt, text: &NameText) -> Option<u32>
    ensures { result ≡ least (assigns_step text.now (bare statement.now)) }
{
    match statement {
        Stmt::Assign(place, _) => place_of(place, text),
        _ => None,
    }
}

/// The place of a name, where it is this one and no item of an array.
fn place_of(place: &Place, text: &NameText) -> Option<u32>
    ensures { result ≡ least (flat_map (place_among (text.now ∷ [])) (plain_name place.now)) }
{
    match place {
        Place::Plain(name) if name.text == *text => Some(name.at),
        _ => None,
    }
}
