// The tape: its commands, the check of refusals 1 to 12, 15 and 16, what it notes of each node, and the way past a node.
#![tactic(auto)]

pub mod check;
pub mod commands;
pub mod facts;
pub mod scan;
pub mod syntax_kind;

ghost use Rattle.std.specs.Prelude.{◌≡◌};
ghost use Rattle.tape.specs.Faults.{number};

// What a token and a node have in common; `at` is the command's offset in the tape.
#[derive(Clone, Copy)]
pub struct Head {
    pub kind: u16,
    pub start: usize,
    pub end: usize,
    pub at: usize,
}

// What `skip` passes over: `at` is the place after it, `tokens` how many tokens are in it.
#[derive(Clone, Copy)]
pub struct Passed {
    pub at: usize,
    pub tokens: usize,
}

// What a refusal is for, by the number that the caller is told: 1 to 12 in this order, then 15 and 16; layout has 13, and desk_job 14.
#[derive(Clone, Copy, Debug, PartialEq, Eq)]
pub enum Fault {
    IndentWidth = 1,
    CaseByte = 2,
    TextTooLong = 3,
    IllFormed = 4,
    TapeTooLong = 5,
    UnknownCommand = 6,
    CutCommand = 7,
    UnknownKind = 8,
    KindNotCarried = 9,
    SpanOutside = 10,
    TooDeep = 11,
    NotOneRoot = 12,
    InsideCharacter = 15,
    WordNotAscii = 16,
}

impl Fault {
    // The number that the caller is told.
    pub fn number(self) -> u64
        ensures { result ≡ number self }
    {
        self as u64
    }
}

// Why a call is refused, and the place.
#[derive(Clone, Copy, Debug, PartialEq, Eq)]
pub struct Refusal {
    pub fault: Fault,
    pub at: usize,
}
