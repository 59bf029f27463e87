//! What follows from the definitions: each function's contract is a law, and its body does
//! nothing.

ghost use Rattle.word_cpu.specs.OnCourse.{MachinesOnCourseCanStep, StepsGoAlongTheCourse};
ghost use Rattle.word_cpu.specs.Reached.{MachinesKeepToTheCourse};
ghost use Rattle.word_cpu.specs.UnderWay.{MachinesStayUnderWay, MachinesUnderWayAreReady, MachinesUnderWayComeOn, StartedMachinesAreUnderWay};

use crate::View;
use task_syntax::laws::{accesses_join_up, courses_under_way_go_on};
use word_code::laws::following_goes_on;

/// Over any view, a machine that is on a course can make a step, and the step goes along the
/// course.
pub fn steps_go_along_the_course<V: View>()
    ensures can_step { MachinesOnCourseCanStep V.meaning }
    ensures steps { StepsGoAlongTheCourse V.meaning }
{
    following_goes_on();
}

/// Over any view, a machine that is started on a body that computes a course is under way in it,
/// within the body's cost. Where it is under way it can make a step, which brings it further along
/// the course by what it answers, or ends the body as the course ends. Between steps the view may
/// change, as long as its words and the store under way stay, or its words change with the base
/// store in no word that was read before it was written.
pub fn machines_under_way_come_to_the_end<V: View>()
    ensures start { StartedMachinesAreUnderWay V.meaning }
    ensures ready { MachinesUnderWayAreReady V.meaning }
    ensures steps { MachinesUnderWayComeOn V.meaning }
    ensures between_steps { MachinesStayUnderWay V.meaning }
{
    courses_under_way_go_on();
    accesses_join_up();
    steps_go_along_the_course::<V>();
}

/// Over any view, a machine that is started on a body that computes a course can make a step
/// wherever it comes to, until the body ends; it ends within its cost, and what it did by then on
/// the view's words is what the course does.
pub fn machines_keep_to_the_course<V: View>()
    ensures { MachinesKeepToTheCourse V.meaning }
{
    accesses_join_up();
    machines_under_way_come_to_the_end::<V>();
}
