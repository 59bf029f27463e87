//! What the definitions of programs and faults come to: each function's contract is a law, and its
//! body is empty.

ghost use Rattle.std.specs.Prelude.{◌≡◌, ℕ, true, false, List};
ghost use Rattle.task_parse.specs.Answer.{HasAnswer};
ghost use Rattle.task_parse.specs.Bars.{AreFree, Scan, scanned, start};
ghost use Rattle.task_parse.specs.Count.{Counts, IsFresh, begins_expression, operators};
ghost use Rattle.task_parse.specs.Faults.{DeepAt, FaultAt};
ghost use Rattle.task_parse.specs.Grammar.{Derives, Form, Reads};
ghost use Rattle.task_parse.specs.Lexeme.{Lexeme};
ghost use Rattle.task_syntax.specs.declared.expression.Expr.{Expr};
ghost use Rattle.task_syntax.specs.declared.program.Program.{Program};

/// A list of tokens is at most one program.
pub fn a_list_is_one_program()
    ensures { (list : List Lexeme) (program other : Program)
        → Derives list program → Derives list other → program ≡ other }
{}

/// A list of tokens is a program of which no token is barred, or it has a first fault, of one kind
/// and at one place. It never is both.
pub fn each_list_has_one_answer()
    ensures some { (list : List Lexeme) → HasAnswer list }
    ensures faults { (list : List Lexeme) (n m : ℕ) → FaultAt list n → FaultAt list m → n ≡ m }
    ensures deeps { (list : List Lexeme) (n m : ℕ) → DeepAt list n → DeepAt list m → n ≡ m }
    ensures apart { (list : List Lexeme) (n m : ℕ) → FaultAt list n → DeepAt list m → ⊥ }
    ensures program { (list : List Lexeme) (program : Program) (n : ℕ) → Derives list program →
        FaultAt list n → ⊥ }
    ensures free { (list : List Lexeme) (n : ℕ) → AreFree start list → DeepAt list n → ⊥ }
{}

/// The scan that tells which tokens are barred counts the operators of an expression, those inside
/// its brackets not among them, and begins at 0 with each whole expression.
pub fn operators_are_counted()
    ensures counted { (least : ℕ) (e : Expr) (old new : List Lexeme)
        (read : Reads (Form.Level least e) old new) (scan : Scan)
        → scan.ended ≡ false → Counts (operators read) old new scan }
    ensures fresh { (scan : Scan) (token : Lexeme) → begins_expression token ≡ true →
        IsFresh (scanned scan token) }
{}
