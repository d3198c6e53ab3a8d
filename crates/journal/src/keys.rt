// The keys of a journal's lines, in the order in which they are due.
ghost use Rattle.std.specs.Prelude.{◌≡◌};
ghost use Rattle.journal.specs.Keys.{front_of, due_key, may_end};

#[derive(Clone, Copy, Debug, PartialEq, Eq)]
pub enum Key {
    Commands,
    Kills,
    Cards,
    Register,
    Move,
    Step,
}

impl Key {
    // What a line under this key begins with.
    pub fn front(self) -> &'static [u8]
        ensures { result.now ≡ front_of self }
    {
        match self {
            Key::Commands => b"commands=",
            Key::Kills => b"kills=",
            Key::Cards => b"cards=",
            Key::Register => b"register=",
            Key::Move => b"move=",
            Key::Step => b"step=",
        }
    }

    // The key that is due on a line, counted from 1, of a journal of `commands` commands.
    pub fn due(line: u32, commands: u32) -> Key
        ensures { result ≡ due_key line commands }
    {
        match line {
            1 => Key::Commands,
            2 => Key::Kills,
            3 => Key::Cards,
            4 => Key::Register,
            _ if u64::from(line) <= 4 + u64::from(commands) => Key::Move,
            _ => Key::Step,
        }
    }

    // Whether a journal may end where this key is due.
    pub fn may_end(self) -> bool
        ensures { result ≡ may_end self }
    {
        self == Key::Step
    }
}
