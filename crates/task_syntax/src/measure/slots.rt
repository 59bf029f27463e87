ghost use Rattle.std.specs.Prelude.{◌≡◌};
ghost use Rattle.task_syntax.specs.Saturated.{saturated};
ghost use Rattle.task_syntax.specs.LocalCount.{local_count, declared_count, declared_counts};

use crate::Stmt;

/// The locals of a body with so many parameters. Each declaration counts, also where two blocks
/// use one name.
#[tactic(auto, using(crate::proofs::Sums::saturating))]
pub fn locals(body: &[Stmt], params: u32) -> u32
    ensures { result ≡ saturated (local_count body.now params) }
{
    params.saturating_add(declared_in_all(body))
}

#[cycle(declared)]
#[tactic(auto, using(crate::proofs::Sums::saturating))]
fn declared_in_all(body: &[Stmt]) -> u32
    ensures { result ≡ saturated (declared_counts body.now) }
{
    let mut sum = 0u32;
    for statement in body {
        sum = sum.saturating_add(declared_in(statement));
    }
    sum
}

#[cycle(declared)]
#[tactic(auto, using(crate::proofs::Sums::saturating))]
fn declared_in(statement: &Stmt) -> u32
    ensures { result ≡ saturated (declared_count statement.now) }
{
    match statement {
        Stmt::Let(_, _) => 1,
        Stmt::If(_, block, other) => {
            let block = declared_in_all(block.as_slice());
            match other {
                None => block,
                Some(other) => block.saturating_add(declared_in_all(other.as_slice())),
            }
        }
        Stmt::Repeat(_, _, block) => declared_in_all(block.as_slice()).saturating_add(1),
        Stmt::Assign(_, _) | Stmt::Next(_) | Stmt::Halt(_) | Stmt::Give(_, _) => 0,
    }
}
