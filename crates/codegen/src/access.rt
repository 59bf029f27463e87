ghost use Rattle.std.specs.Prelude.{◌≡◌, List, []};
ghost use Rattle.word_code.specs.declared.instruction.Instr.{Instr};
ghost use Rattle.word_code.specs.Instruction.{width};
ghost use Rattle.task_syntax.specs.Names.{words_of};
ghost use Rattle.codegen.specs.Scope.{slot_of};
ghost use Rattle.codegen.specs.Templates.{plain_code, item_code};

use crate::scope::Scope;
use task_check::Checked;
use task_syntax::Name;
use word_code::Instr;

/// The instructions that load and store a place.
#[derive(Clone, Copy, Debug)]
pub(crate) struct Access {
    pub(crate) load: Instr,
    pub(crate) store: Instr,
}

/// Those of a scalar or a local. A variable has its name alone, so in a checked program another
/// name is a local in scope.
pub(crate) fn plain_access(checked: &Checked, scope: &Scope, name: &Name) -> Access
    ensures code { plain_code (words_of checked.now name.now.text)
        (slot_of scope.now.locals name.now.text) ≡ record {
          index = [];
          load = result.load;
          store = result.store;
        } }
    ensures load { width result.load ≡ 2 }
    ensures store { width result.store ≡ 2 }
{
    match checked.word_of(&name.text) {
        Some((first, _)) => Access {
            load: Instr::LoadV(first),
            store: Instr::StoreV(first),
        },
        None => {
            let slot = scope.slot_of(name).unwrap_or(0);
            Access {
                load: Instr::GetL(slot),
                store: Instr::SetL(slot),
            }
        }
    }
}

/// Those of an item of an array, as which a checked program takes nothing else.
pub(crate) fn item_access(checked: &Checked, name: &Name) -> Access
    ensures code { (index : List Instr) → item_code index (words_of checked.now name.now.text)
        ≡ record { index = index; load = result.load; store = result.store } }
    ensures load { width result.load ≡ 3 }
    ensures store { width result.store ≡ 3 }
{
    let (first, length) = match checked.word_of(&name.text) {
        Some((first, length)) => (first, length.unwrap_or(1)),
        None => (0, 1),
    };
    Access {
        load: Instr::LoadX(first, length),
        store: Instr::StoreX(first, length),
    }
}
