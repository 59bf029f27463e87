ghost use Rattle.std.specs.Prelude.{◌≡◌, ◌+◌, ◌≤◌, ◌++◌, ◌∷◌, [], OnOk};
ghost use Rattle.task_syntax.specs.CodeWords.{access_words, expression_words, expressions_words};
ghost use Rattle.codegen.specs.Templates.{expression_code, expressions_code, place_code};

use crate::access::{item_access, plain_access};
use crate::scope::Scope;
use crate::segment::Segment;
use coati_word::OutOfMemory;
use task_check::Checked;
use task_syntax::{Expr, Place};
use word_code::Instr;

/// Appends the code of an expression.
#[cycle(expression)]
pub(crate) fn put_expression(
    checked: &Checked,
    scope: &Scope,
    value: &Expr,
    out: &mut Segment,
) -> Result<(), OutOfMemory>
    requires { out.old.end + expression_words value.now ≤ 50000 }
    ensures code { OnOk result (out.new.instrs.items ≡ out.old.instrs.items
        ++ expression_code checked.now value.now scope.now.locals) }
    ensures end { OnOk result (out.new.end ≡ out.old.end + expression_words value.now) }
{
    match value {
        Expr::Num(number) => out.push(Instr::Push(*number)),
        Expr::Get(place) => put_load(checked, scope, place, out),
        Expr::One(op, operand) => {
            put_expression(checked, scope, operand.get(), out)?;
            out.push(Instr::One(*op))
        }
        Expr::Two(op, left, right) => {
            put_expression(checked, scope, left.get(), out)?;
            put_expression(checked, scope, right.get(), out)?;
            out.push(Instr::Two(*op))
        }
    }
}

#[cycle(expression)]
fn put_load(
    checked: &Checked,
    scope: &Scope,
    place: &Place,
    out: &mut Segment,
) -> Result<(), OutOfMemory>
    requires { out.old.end + access_words place.now ≤ 50000 }
    ensures code { OnOk result (out.new.instrs.items ≡ out.old.instrs.items
        ++ ((place_code checked.now place.now scope.now.locals).index
        ++ (place_code checked.now place.now scope.now.locals).load ∷ [])) }
    ensures end { OnOk result (out.new.end ≡ out.old.end + access_words place.now) }
{
    match place {
        Place::Plain(name) => {
            let access = plain_access(checked, scope, name);
            out.push(access.load)
        }
        Place::Item(name, index) => {
            put_expression(checked, scope, index.get(), out)?;
            let access = item_access(checked, name);
            out.push(access.load)
        }
    }
}

/// Appends the code of expressions, one after another.
pub(crate) fn put_expressions(
    checked: &Checked,
    scope: &Scope,
    values: &[Expr],
    out: &mut Segment,
) -> Result<(), OutOfMemory>
    requires { out.old.end + expressions_words values.now ≤ 50000 }
    ensures code { OnOk result (out.new.instrs.items ≡ out.old.instrs.items
        ++ expressions_code checked.now values.now scope.now.locals) }
    ensures end { OnOk result (out.new.end ≡ out.old.end + expressions_words values.now) }
{
    for value in values {
        put_expression(checked, scope, value, out)?;
    }
    Ok(())
}
