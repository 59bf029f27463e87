ghost use Rattle.std.specs.Fn.{FnReturnsAt};
ghost use Rattle.task_check.specs.Within.{IsLeastWithin, nested};

use crate::least::lesser;
use task_syntax::Stmt;

/// The least of the places that `place` gives of the statements in a block, those in their blocks
/// among them.
#[cycle(within)]
pub(crate) fn least_within<F: Fn(&Stmt) -> Option<u32>>(block: &[Stmt], place: &F) -> Option<u32>
    requires { F.IsAlwaysCallable place.now }
    ensures { IsLeastWithin (FnReturnsAt F.Fn place.now) block.now result }
{
    let mut found = None;
    for statement in block {
        let own = lesser(place(statement), least_in_blocks(statement, place));
        found = lesser(found, own);
    }
    found
}

/// The same in the blocks of a statement.
#[cycle(within)]
fn least_in_blocks<F: Fn(&Stmt) -> Option<u32>>(statement: &Stmt, place: &F) -> Option<u32>
    requires { F.IsAlwaysCallable place.now }
    ensures { IsLeastWithin (FnReturnsAt F.Fn place.now) (nested statement.now) result }
{
    match statement {
        Stmt::If(_, block, other) => {
            let block = least_within(block.as_slice(), place);
            match other {
                Some(other) => lesser(block, least_within(other.as_slice(), place)),
                None => block,
            }
        }
        Stmt::Repeat(_, _, block) => least_within(block.as_slice(), place),
        Stmt::Let(_, _) | Stmt::Assign(_, _) | Stmt::Next(_) | Stmt::Halt(_) | Stmt::Give(_, _) => {
            None
        }
    }
}
