ghost use Rattle.std.specs.Prelude.{◌≡◌, IfOk, OnOk};
ghost use Rattle.task_syntax.specs.Names.{words_of};
ghost use Rattle.task_syntax.specs.Expressions.{aim, expression, item_aim, plain_aim, value_at};
ghost use Rattle.serial_run.specs.Aims.{IsAimWithin, aim_of};
ghost use Rattle.serial_run.specs.Locals.{locals_of};
ghost use Rattle.serial_run.specs.Moments.{behind, end_of};
ghost use Rattle.serial_run.specs.Runs.{IsRunOf, moment_of};

use crate::locals::Locals;
use crate::run::Run;
use crate::target::Target;
use coati_word::{Op, OutOfMemory, apply, apply1};
use task_check::Checked;
use task_syntax::{Expr, NameText, Place};

/// The value of an expression.
#[cycle(expression)]
#[tactic(auto, using(crate::proofs::Steps::steps))]
pub(crate) fn evaluate(
    checked: &Checked,
    locals: &Locals,
    run: &mut Run,
    source: &Expr,
) -> Result<u16, OutOfMemory>
    requires run { IsRunOf checked.now run.old }
    ensures value { IfOk result (λ value. value
        ≡ end_of (expression checked.now source.now (locals_of locals.now)) (moment_of run.old)) }
    ensures still { OnOk result (IsRunOf checked.now run.new) }
    ensures moment { OnOk result (moment_of run.new
        ≡ behind (expression checked.now source.now (locals_of locals.now)) (moment_of run.old)) }
{
    match source {
        Expr::Num(number) => Ok(*number),
        Expr::Get(place) => {
            let target = aim(checked, locals, run, place)?;
            read(checked, locals, run, target)
        }
        Expr::One(op, operand) => {
            let value = evaluate(checked, locals, run, operand.get())?;
            Ok(apply1(*op, value))
        }
        Expr::Two(op, left, right) => {
            let left = evaluate(checked, locals, run, left.get())?;
            let right = evaluate(checked, locals, run, right.get())?;
            Ok(apply(*op, left, right))
        }
    }
}

/// Where a place is.
#[cycle(expression)]
#[tactic(auto, using(crate::proofs::Steps::steps))]
pub(crate) fn aim<'p>(
    checked: &Checked,
    locals: &Locals,
    run: &mut Run,
    place: &'p Place,
) -> Result<Target<'p>, OutOfMemory>
    requires run { IsRunOf checked.now run.old }
    ensures aim { IfOk result (λ target. aim_of target
        ≡ end_of (aim checked.now place.now (locals_of locals.now)) (moment_of run.old)) }
    ensures within { IfOk result (λ target. IsAimWithin checked.now (aim_of target)) }
    ensures still { OnOk result (IsRunOf checked.now run.new) }
    ensures moment { OnOk result (moment_of run.new
        ≡ behind (aim checked.now place.now (locals_of locals.now)) (moment_of run.old)) }
{
    match place {
        Place::Plain(name) => Ok(plain(checked, &name.text)),
        Place::Item(name, index) => {
            let index = evaluate(checked, locals, run, index.get())?;
            Ok(item(checked, &name.text, index))
        }
    }
}

/// Where a name without an index is.
fn plain<'p>(checked: &Checked, name: &'p NameText) -> Target<'p>
    ensures aim { aim_of result ≡ plain_aim name.now (words_of checked.now name.now) }
    ensures within { IsAimWithin checked.now (aim_of result) }
{
    match checked.word_of(name) {
        None => Target::Local(name),
        Some((first, _)) => Target::Word(first),
    }
}

/// Where an item is. An index goes round modulo the array's length.
fn item<'p>(checked: &Checked, name: &'p NameText, index: u16) -> Target<'p>
    ensures aim { aim_of result ≡ item_aim name.now index (words_of checked.now name.now) }
    ensures within { IsAimWithin checked.now (aim_of result) }
{
    match checked.word_of(name) {
        None => Target::Local(name),
        Some((first, length)) => Target::Word(first + apply(Op::Rem, index, length.unwrap_or(1))),
    }
}

/// What stands at a place. A variable's word is read.
#[tactic(auto, using(crate::proofs::Steps::steps))]
fn read(
    checked: &Checked,
    locals: &Locals,
    run: &mut Run,
    target: Target,
) -> Result<u16, OutOfMemory>
    requires run { IsRunOf checked.now run.old }
    requires within { IsAimWithin checked.now (aim_of target) }
    ensures value { IfOk result (λ value. value
        ≡ end_of (value_at (locals_of locals.now) (aim_of target.entry)) (moment_of run.old)) }
    ensures still { OnOk result (IsRunOf checked.now run.new) }
    ensures moment { OnOk result (moment_of run.new
        ≡ behind (value_at (locals_of locals.now) (aim_of target.entry)) (moment_of run.old)) }
{
    match target {
        Target::Local(name) => Ok(locals.get(name)),
        Target::Word(word) => run.load(word),
    }
}
