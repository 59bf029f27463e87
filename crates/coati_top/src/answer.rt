ghost use Rattle.std.specs.Prelude.{◌≤◌, length, IfOk};
ghost use Rattle.coati_top.specs.Answer.{Answers};
ghost use Rattle.coati_top.specs.Refused.{Refuses};
ghost use Rattle.coati_top.specs.Served.{served_board, served_text};
ghost use Rattle.coati_top.specs.Words.{IsServable};

use crate::refusal::{Refusal, Unserved};
use crate::served::{Served, serve};
use crate::{Command, Status};
use coati_word::OutOfMemory;
use std::alloc::Global;

/// What a command answers to an input.
#[derive(Drop)]
pub(crate) struct Reply {
    pub(crate) status: Status,
    pub(crate) told: Served,
}

/// The command's answer to the input.
pub(crate) fn reply_to(alloc: Global, command: Command, input: &[u8]) -> Result<Reply, OutOfMemory>
    requires small { length input.now ≤ 262144 }
    requires servable { IsServable command }
    ensures { IfOk result (λ reply. Answers command input.now reply.status
        (served_text reply.told) (served_board reply.told)) }
{
    match serve(alloc, command, input) {
        Ok(told) => Ok(Reply {
            status: Status::Ok,
            told,
        }),
        Err(Unserved::Refused(refusal)) => refused(alloc, command, input, refusal),
        Err(Unserved::OutOfMemory) => Err(OutOfMemory),
    }
}

/// The answer to an input that is refused.
fn refused(
    alloc: Global,
    command: Command,
    input: &[u8],
    refusal: Refusal,
) -> Result<Reply, OutOfMemory>
    requires { Refuses command input.now refusal }
    ensures { IfOk result (λ reply. Answers command input.now reply.status
        (served_text reply.told) (served_board reply.told)) }
{
    let text = refusal.text(alloc)?;
    Ok(Reply {
        status: refusal.status(),
        told: Served::Text(text),
    })
}
