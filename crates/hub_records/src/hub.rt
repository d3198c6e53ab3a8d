// The hub's own record.
ghost use Rattle.std.specs.Prelude.{◌≡◌, ◌≤◌};
ghost use Rattle.hub_records.specs.Names.{state_name};

// The counts that are asked of a new hub: of its commands, of the cards that it may lose, and of each role's cards.
#[derive(Clone, Copy, Debug, PartialEq, Eq)]
pub struct Counts {
    pub commands: u32,
    pub kills: u32,
    pub cards: u32,
}

#[derive(Clone, Copy, Debug, PartialEq, Eq)]
pub enum ExecState {
    Running,
    Success,
    Fatal,
}

impl ExecState {
    /// The name of the state, as reports and programs write it.
    pub fn name(self) -> &'static str
        ensures { result.now ≡ state_name self }
    {
        match self {
            ExecState::Running => "running",
            ExecState::Success => "success",
            ExecState::Fatal => "fatal",
        }
    }
}

// How large the hub is, how it stands, how many cards it has lost and how many steps it has accepted.
// Its type keeps the counts within their limits. The three stand here one by one, and not as a `Counts`: callers store and
// restore this record, and they and the definitions read `hub.commands`.
#[derive(Clone, Copy, Debug, PartialEq, Eq)]
pub struct Hub {
    pub commands: u32,
    pub kills: u32,
    pub cards: u32,
    pub state: ExecState,
    pub losses: u32,
    pub steps: u32,
    ghost some_commands: { 1 ≤ commands },
    ghost few_commands: { commands ≤ 64 },
    ghost few_kills: { kills ≤ 7 },
    ghost some_cards: { 1 ≤ cards },
    ghost few_cards: { cards ≤ 8 },
    ghost within: { losses ≤ kills },
}
