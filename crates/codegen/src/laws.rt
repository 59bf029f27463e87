//! What follows from the definitions: each function's contract is a law.

ghost use Rattle.std.specs.Prelude.{[], ◌∷◌, All};
ghost use Rattle.task_check.specs.Accepted.{IsAccepted};
ghost use Rattle.task_syntax.specs.declared.body.Kind.TheVariants.{Task, Top, Bottom};
ghost use Rattle.task_syntax.specs.declared.program.Program.{Program};
ghost use Rattle.task_syntax.specs.Names.{tasks};
ghost use Rattle.codegen.specs.Bodies.{EachFits};
ghost use Rattle.codegen.specs.CodeLaws.{BodiesStandByNumber, CodeHasItsWords, FittingBodiesComputeTheirCourse, FittingCodeIsEncodable, FittingProgramsComputeTheirCourses};
ghost use Rattle.codegen.specs.Fit.{Fits};
ghost use Rattle.codegen.specs.ProgramLaws.{BottomHalvesComputeTheirCourse, TasksComputeTheirCourse, TopHalvesComputeTheirCourse};

use task_check::laws::accepted_messages_are_short;
use word_code::laws::instructions_are_their_words;

/// The words of a body that fits do what the body means: on any memory they make its reads and
/// writes in their order, and end as it ends, within its cost; all the while an instruction can
/// run.
pub fn fitting_bodies_compute_their_course()
    ensures bodies { FittingBodiesComputeTheirCourse }
    ensures programs { FittingProgramsComputeTheirCourses }
{
    instructions_are_their_words();
}

/// The instructions of a body that fits can be encoded.
pub fn fitting_code_is_encodable()
    ensures { FittingCodeIsEncodable }
{}

/// The code of a body has the words that were counted, whether it fits or not.
pub fn code_has_its_words()
    ensures { CodeHasItsWords }
{}

/// The code of a program has each body under its number.
pub fn bodies_stand_by_number()
    ensures { BodiesStandByNumber }
{}

/// Each body of an accepted program fits, so its code does what it means.
pub fn accepted_bodies_fit()
    ensures tasks { (program : Program) → IsAccepted program
        → All (λ task. Fits program Task [] task.body) (tasks program) }
    ensures tops { (program : Program) → IsAccepted program
        → All (λ event. Fits program Top (event.argument ∷ []) event.top) program.events }
    ensures bottoms { (program : Program) → IsAccepted program
        → All (λ event. Fits program Bottom event.params event.bottom) program.events }
    ensures each { (program : Program) → IsAccepted program → EachFits program }
{
    accepted_messages_are_short();
}

/// The code of an accepted program does what the program means: each body, found by its number,
/// follows its course within its cost, and is never stuck.
pub fn accepted_programs_compute_their_courses()
    ensures tasks { TasksComputeTheirCourse }
    ensures tops { TopHalvesComputeTheirCourse }
    ensures bottoms { BottomHalvesComputeTheirCourse }
{
    accepted_bodies_fit();
    fitting_bodies_compute_their_course();
}
