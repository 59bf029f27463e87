//! What the definitions of traces come to.
ghost use Rattle.std.specs.Prelude.{◌≡◌, ℕ, List};
ghost use Rattle.std.specs.List.{join_with_byte};
ghost use Rattle.serial_log.specs.declared.script.Script.{Script};
ghost use Rattle.task_syntax.specs.declared.program.Program.{Program};
ghost use Rattle.trace_text.specs.Answer.{IsAnswered};
ghost use Rattle.trace_text.specs.Fields.{fields_of, space};
ghost use Rattle.trace_text.specs.Statements.{Says};
ghost use Rattle.trace_text.specs.Trace.{FirstFault, IsScriptFor, IsWithin, TraceText};
ghost use Rattle.trace_text.specs.declared.statement.Statement.{Statement};

use crate::TraceFault;

/// Each text is one script or has one first fault, and not both.
pub fn each_text_has_one_answer()
    ensures one { (program : Program) (text : List ℕ) → IsAnswered program text }
    ensures script { (program : Program) (text : List ℕ) (script other : Script)
        → TraceText program text script → TraceText program text other → script ≡ other }
    ensures fault { (program : Program) (text : List ℕ) (fault other : TraceFault)
        → FirstFault program text fault → FirstFault program text other → fault ≡ other }
    ensures apart { (program : Program) (text : List ℕ) (script : Script) (fault : TraceFault)
        → TraceText program text script → FirstFault program text fault → ⊥ }
{}

/// The script of a text is within all limits, its postings are of the program's events, and their
/// times never fall.
pub fn scripts_are_within_the_limits()
    ensures within { (program : Program) (text : List ℕ) (script : Script)
        → TraceText program text script → IsWithin program script }
    ensures numbers { (program : Program) (text : List ℕ) (script : Script)
        → TraceText program text script → IsScriptFor program script }
{}

/// A line is its fields with a space between each two, and says at most one thing.
pub fn each_line_says_at_most_one_thing()
    ensures fields { (line : List ℕ) → join_with_byte space (fields_of line) ≡ line }
    ensures statement { (program : Program) (line : List ℕ) (statement other : Statement)
        → Says program line statement → Says program line other → statement ≡ other }
{}
