// What every run keeps, for each kind of register. Each function's contract is the promise that its name says;
// the functions have nothing to compute, and stand here so that the proofs are asked for.
ghost use Rattle.hub_runs.specs.EachRun.{EveryRunKeepsItsPromises};
ghost use Rattle.hub_runs.specs.Promises.{AtMostOneCardOfARoleIsActive, DoneCommandsAreInBothLastLists, FatalMeansBothCardsOfACommandAreGone, NoCommandIsTakenTwice, SomeStepIsOpen, StepsAreCountedAndBounded, SuccessCountsEveryCommand};

use registers::Register;

pub fn no_command_is_taken_twice<R: Register>()
    ensures { NoCommandIsTakenTwice R.start R.rule }
{}

pub fn done_commands_are_in_both_last_lists<R: Register>()
    ensures { DoneCommandsAreInBothLastLists R.start R.rule }
{}

pub fn success_counts_every_command<R: Register>()
    ensures { SuccessCountsEveryCommand R.start R.rule }
{}

pub fn at_most_one_card_of_a_role_is_active<R: Register>()
    ensures { AtMostOneCardOfARoleIsActive R.start R.rule }
{}

pub fn fatal_means_both_cards_of_a_command_are_gone<R: Register>()
    ensures { FatalMeansBothCardsOfACommandAreGone R.start R.rule }
{}

pub fn steps_are_counted_and_bounded<R: Register>()
    ensures { StepsAreCountedAndBounded R.start R.rule }
{}

pub fn some_step_is_open<R: Register>()
    ensures { SomeStepIsOpen R.start R.rule }
{}

/// Everything that is promised of runs holds of every run, with registers of any kind.
pub fn every_run_keeps_its_promises<R: Register>()
    ensures { EveryRunKeepsItsPromises R.start R.rule }
{}
