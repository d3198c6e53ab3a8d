// What the model of runs is: the module's actions, and some runs worked out.
ghost use Rattle.hub_runs.specs.Module.{StepsAreTheModules};
ghost use Rattle.hub_runs.specs.Shortcuts.{ShortcutsMiscount};
ghost use Rattle.hub_runs.specs.WorkedRuns.{WorkedRuns};

use registers::Register;

/// Judging a step is taking the module's action under the step's letter, with registers of any kind.
pub fn steps_are_the_modules<R: Register>()
    ensures { StepsAreTheModules R.rule }
{}

/// The worked runs go as they stand in the specification.
pub fn worked_runs_hold()
    ensures { WorkedRuns }
{}

/// Three shortcuts that the actions do not take would miscount.
pub fn shortcuts_miscount()
    ensures { ShortcutsMiscount }
{}
