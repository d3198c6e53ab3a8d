// Examples of classes and means.
ghost use Rattle.std.specs.Prelude.{◌≡◌, true};
ghost use Rattle.registers.specs.Examples.{WorkedExamples};

use super::classes::class_of;
use super::means::mean;

/// Whether the code answers the worked examples as they stand in the specification: it does.
pub fn worked_examples_hold() -> bool
    ensures answered { result ≡ true }
    ensures stated { WorkedExamples }
{
    let classes = class_of(49) == 0
        && class_of(50) == 1
        && class_of(250) == 3
        && class_of(9000) == 7;
    let means = mean(25, 2) == Some(13) && mean(-25, 2) == Some(-13);
    classes && means
}
