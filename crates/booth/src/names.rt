ghost use Rattle.std.specs.Prelude.{[], None};
ghost use Rattle.coati_word.specs.declared.mode.Mode.{Mode};
ghost use Rattle.coati_word.specs.declared.mode.Mode.TheVariants.{Split};
ghost use Rattle.serial_log.specs.declared.script.Script.{Script};
ghost use Rattle.task_syntax.specs.declared.program.Program.{Program};

use std::marker::Brand;

/// Which board a booth is of: its program, its mode and its script, for contracts alone. A call
/// that opens a booth picks them.
pub trait Names {
    ghost program: { Program };

    ghost mode: { Mode };

    ghost script: { Script };
}

impl Names for Brand {
    ghost program = { record { vars = []; buffer = None; events = []; units = [] } };

    ghost mode = { Split };

    ghost script = { record { limit = 0; power = []; postings = [] } };
}
