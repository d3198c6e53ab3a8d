// What every run of a hub keeps: the model of the steps, the runs, and the promises about them.
#![tactic(auto)]

mod model;
mod promises;

pub use model::{shortcuts_miscount, steps_are_the_modules, worked_runs_hold};
pub use promises::{
    at_most_one_card_of_a_role_is_active, done_commands_are_in_both_last_lists,
    every_run_keeps_its_promises, fatal_means_both_cards_of_a_command_are_gone,
    no_command_is_taken_twice, some_step_is_open, steps_are_counted_and_bounded,
    success_counts_every_command,
};
