// What is known of a batch while its journal is read.
use registers::Kind;

// The three counts stand here one by one: their struct is of the hub's records, on which this crate does not stand. Each is 0
// before its line, like the counts of steps, and a batch is shown only when all lines were read.
// `register` has taken the moves so far; `letters` counts the steps under each letter. There is no kind until the journal
// has named its register.
#[derive(Clone, Copy, Debug, PartialEq, Eq)]
pub struct Batch<R> {
    pub commands: u32,
    pub kills: u32,
    pub cards: u32,
    pub kind: Option<Kind>,
    pub register: R,
    pub letters: [u32; 18],
}
