ghost use Rattle.std.specs.Prelude.{◌≡◌, ◌+◌, ◌≤◌, ◌++◌, IfOk, OnOk, length};
ghost use Rattle.task_syntax.specs.Cost.{end_cost};
ghost use Rattle.task_syntax.specs.CodeWords as counted;
ghost use Rattle.task_syntax.specs.LocalCount.{local_count};
ghost use Rattle.codegen.specs.Code.{AreEncodable, words_of};
ghost use Rattle.codegen.specs.Fit.{Fits};
ghost use Rattle.codegen.specs.Scope.{declare_all};
ghost use Rattle.codegen.specs.Templates.{body_code, body_words, end_code};

use crate::laws::fitting_code_is_encodable;
use crate::scope::Scope;
use crate::segment::Segment;
use crate::statement::put_statements;
use coati_word::OutOfMemory;
use std::alloc::Global;
use task_check::Checked;
use task_syntax::{Kind, Name, Stmt};
use word_code::{Instr, encode};

/// The words of a body.
pub(crate) fn body_words(
    alloc: Global,
    checked: &Checked,
    kind: Kind,
    params: &[Name],
    body: &[Stmt],
) -> Result<Vec<u16>, OutOfMemory>
    requires { Fits checked.now kind params.now body.now }
    ensures { IfOk result (λ words. words.items
        ≡ body_words checked.now kind params.now body.now) }
{
    fitting_code_is_encodable();
    let code = body_code(alloc, checked, kind, params, body)?;
    encode_all(alloc, &code.instrs)
}

/// The instructions of a body.
fn body_code(
    alloc: Global,
    checked: &Checked,
    kind: Kind,
    params: &[Name],
    body: &[Stmt],
) -> Result<Segment, OutOfMemory>
    requires words { counted.body_words body.now kind ≤ 50000 }
    requires locals { local_count body.now (length params.now) ≤ 32 }
    ensures { IfOk result (λ code. code.instrs.items
        ≡ body_code checked.now kind params.now body.now) }
{
    let mut scope = Scope::new(alloc);
    declare_all(&mut scope, params)?;
    let mut code = Segment::new(alloc, 0);
    put_statements(alloc, checked, &mut scope, body, &mut code)?;
    put_end(kind, &mut code)?;
    Ok(code)
}

/// Takes the parameters of a body into scope, one after another.
fn declare_all<'a>(scope: &mut Scope<'a>, params: &'a [Name]) -> Result<(), OutOfMemory>
    requires { scope.old.next + length params.now ≤ 32 }
    ensures scope { OnOk result (scope.new ≡ declare_all params.now scope.old) }
    ensures slots { OnOk result (scope.new.next ≡ scope.old.next + length params.now) }
{
    for name in params {
        scope.declare(name)?;
    }
    Ok(())
}

/// Appends what a body of this kind ends with.
fn put_end(kind: Kind, out: &mut Segment) -> Result<(), OutOfMemory>
    requires { out.old.end + end_cost kind ≤ 50000 }
    ensures { OnOk result (out.new.instrs.items ≡ out.old.instrs.items ++ end_code kind) }
{
    match kind {
        Kind::Task | Kind::Top => Ok(()),
        Kind::Bottom => out.push(Instr::Done),
    }
}

/// The words of instructions, one after another.
fn encode_all(alloc: Global, instrs: &[Instr]) -> Result<Vec<u16>, OutOfMemory>
    requires { AreEncodable instrs.now }
    ensures { IfOk result (λ words. words.items ≡ words_of instrs.now) }
{
    let mut words = Vec::new(alloc);
    for instr in instrs {
        encode(instr, &mut words)?;
    }
    Ok(words)
}
