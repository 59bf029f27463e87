ghost use Rattle.std.specs.Prelude.{◌≡◌};
ghost use Rattle.task_check.specs.Bodies.{task_body, top_half, bottom_half};
ghost use Rattle.task_check.specs.BodyRules.{read};

use std::slice;
use task_syntax::{Event, Kind, Name, Stmt, TaskDecl};

/// A body, with the place of its task's or event's name, and the names that it takes.
#[derive(Clone, Copy)]
pub(crate) struct Body<'a> {
    pub(crate) at: u32,
    pub(crate) kind: Kind,
    pub(crate) params: &'a [Name],
    pub(crate) statements: &'a [Stmt],
}

impl<'a> Body<'a> {
    /// The body of a task.
    pub(crate) fn of_task(task: &'a TaskDecl) -> Body<'a>
        ensures { read result ≡ task_body task.now }
    {
        Body {
            at: task.name.at,
            kind: Kind::Task,
            params: &[],
            statements: task.body.as_slice(),
        }
    }

    /// The top half of an event.
    pub(crate) fn top_of(event: &'a Event) -> Body<'a>
        ensures { read result ≡ top_half event.now }
    {
        Body {
            at: event.name.at,
            kind: Kind::Top,
            params: slice::from_ref(&event.argument),
            statements: event.top.as_slice(),
        }
    }

    /// The bottom half of an event.
    pub(crate) fn bottom_of(event: &'a Event) -> Body<'a>
        ensures { read result ≡ bottom_half event.now }
    {
        Body {
            at: event.name.at,
            kind: Kind::Bottom,
            params: event.params.as_slice(),
            statements: event.bottom.as_slice(),
        }
    }
}
