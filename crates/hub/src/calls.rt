// Calls on a hub that was made, and what they are answered, as values: so that a list of calls can be handed over.
use hub_records::look::Look;

// A step, by its letter and the number of its command; or a look.
// By a rule of the project the number is 0, and no Option, for a step of the cards alone.
#[derive(Clone, Copy, Debug, PartialEq, Eq)]
pub enum Call {
    Step { letter: char, command: usize },
    Look,
}

// What a call is answered that is not refused.
// An enum of its own, and no `Option<Look>`: a step that is taken has an answer too, and none would say that it had not.
#[derive(Clone, Copy, Debug, PartialEq, Eq)]
pub enum Answer {
    Stepped,
    Seen(Look),
}
