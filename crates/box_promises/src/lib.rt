// What is promised of the whole box, in memory that the caller lends.
#![tactic(auto)]

ghost use Rattle.box_promises.specs.Promises.{Promises};

// What is promised of the box: demands 1, 2 and 3, of what its calls answer and leave in memory.
pub fn promises()
    ensures { Promises }
{
    rules_plan::promises();
    rules_box::promises();
}
