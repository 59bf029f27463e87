ghost use Rattle.std.specs.Prelude.{◌≡◌, ◌+◌, ◌<◌, ◌&&◌, drop, length};
ghost use Rattle.task_check.specs.BodyRules.{read};
ghost use Rattle.task_check.specs.Endings.{block_ends, has_ending, statement_ends, early_in, early_in_block, is_last, early_endings, no_ending};
ghost use Rattle.task_check.specs.Least.{least};

use super::body::Body;
use crate::least::{lesser, place_unless};
use task_syntax::{Kind, Stmt};

/// The place of the body's name, where it lacks an ending.
pub(crate) fn no_ending(body: &Body<'_>) -> Option<u32>
    ensures { result ≡ least (no_ending (read body.now)) }
{
    if has_ending(body.kind, body.statements) {
        None
    } else {
        Some(body.at)
    }
}

fn has_ending(kind: Kind, body: &[Stmt]) -> bool
    ensures { result ≡ has_ending kind body.now }
{
    match kind {
        Kind::Task | Kind::Top => block_ends(body),
        Kind::Bottom => true,
    }
}

#[cycle(ends)]
fn block_ends(block: &[Stmt]) -> bool
    ensures { result ≡ block_ends block.now }
{
    match block {
        [.., last] => statement_ends(last),
        [] => false,
    }
}

#[cycle(ends)]
fn statement_ends(statement: &Stmt) -> bool
    ensures { result ≡ statement_ends statement.now }
{
    match statement {
        Stmt::If(_, block, other) => match other {
            Some(other) => block_ends(block.as_slice()) && block_ends(other.as_slice()),
            None => false,
        },
        Stmt::Next(_) | Stmt::Halt(_) | Stmt::Give(_, _) => true,
        Stmt::Let(_, _) | Stmt::Assign(_, _) | Stmt::Repeat(_, _, _) => false,
    }
}

/// The least ending of a body that may not stand where it does.
pub(crate) fn early_endings(body: &Body<'_>) -> Option<u32>
    ensures { result ≡ least (early_endings (read body.now)) }
{
    early_in_block(body.kind, body.statements, true)
}

/// The same in a block, whose last statement is last in the body where the block is.
#[cycle(early)]
#[tactic(auto, using(crate::proofs::LeastParts::parts, crate::proofs::EndingParts::ending_parts))]
fn early_in_block(kind: Kind, block: &[Stmt], last: bool) -> Option<u32>
    ensures { result ≡ least (early_in_block kind block.now last) }
{
    let mut found = None;
    for (index, statement) in block.iter().enumerate() {
        let last = is_last_of_body(last, block, index);
        found = lesser(found, early_in(kind, statement, last));
    }
    found
}

/// Whether a statement is last in its body, where its block is.
#[tactic(auto, using(crate::proofs::EndingParts::ending_parts))]
fn is_last_of_body(block_is: bool, block: &[Stmt], index: usize) -> bool
    requires { index < length block.now }
    ensures { result ≡ (block_is && is_last (drop (index + 1) block.now)) }
{
    block_is && index + 1 == block.len()
}

#[cycle(early)]
#[tactic(auto, using(crate::proofs::LeastParts::parts, crate::proofs::EndingParts::ending_parts))]
fn early_in(kind: Kind, statement: &Stmt, last: bool) -> Option<u32>
    ensures { result ≡ least (early_in kind statement.now last) }
{
    match statement {
        Stmt::If(_, block, other) => {
            let block = early_in_block(kind, block.as_slice(), last);
            match other {
                Some(other) => lesser(block, early_in_block(kind, other.as_slice(), last)),
                None => block,
            }
        }
        Stmt::Repeat(_, _, block) => early_in_block(kind, block.as_slice(), false),
        Stmt::Next(name) => place_unless(last && kind == Kind::Task, name.at),
        Stmt::Halt(at) => place_unless(last && kind == Kind::Task, *at),
        Stmt::Give(_, at) => place_unless(last && kind == Kind::Top, *at),
        Stmt::Let(_, _) | Stmt::Assign(_, _) => None,
    }
}
