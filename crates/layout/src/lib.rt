// The definition of the layout stands in specs/; here are the types that it shares with the code.
#![tactic(auto)]

ghost use Rattle.std.specs.Prelude.{◌≡◌};
ghost use Rattle.layout.specs.declared.Refused.TheVariants.{Input};
ghost use Rattle.layout.specs.Outcome.{answer_of, refused_number, refused_value};
ghost use Rattle.layout.specs.Routines.{after, flagged};

use tape::Refusal;

// The local variables of a routine: its flag (which the source names differently in each) and prev_kind. Each has its own use: the flag does not say
// whether a kind went before.
#[derive(Clone, Copy)]
pub struct Local {
    pub flag: bool,
    pub prev: Option<u16>,
}

impl Local {
    pub fn flagged(flag: bool) -> Local
        ensures { result ≡ flagged flag }
    {
        Local { flag, prev: None }
    }

    pub fn after(kind: u16) -> Local
        ensures { result ≡ after kind }
    {
        Local {
            flag: false,
            prev: Some(kind),
        }
    }
}

// The routines of format_node.rs on the carried side, in the order of its dispatch. format_group_by_clause and format_order_by_clause are
// one, by the kind of their list; format_limit_by_clause is format_join_clause.
#[derive(Clone, Copy)]
pub enum Routine {
    File,
    QueryList,
    SelectStatement,
    SelectClause,
    SimpleClause,
    ListClause(u16),
    SettingsClause,
    WithClause,
    JoinClause,
    Inline,
    CommaList,
    InlineCommaList,
    BinaryExpression,
    UnaryExpression,
    FunctionCall,
    CaseExpression,
    WhenClause,
    Subquery,
    ParenList,
    BracketList,
    InlineNoSpaces,
    BraceList,
    DataType,
    InlineTightParens,
    AlterCommandList,
    UnionClause,
    Passthrough,
}

// Why a call is refused: for its settings, its text or its tape; for an output space that is too short, with the needed length; or for a map space
// that is too short, with the count of numbers needed.
#[derive(Clone, Copy, Debug, PartialEq, Eq)]
pub enum Refused {
    Input(Refusal),
    OutputSpace(usize),
    MapSpace(usize),
}

impl From<Refusal> for Refused {
    ghost from_gives = { λ refusal refused. refused ≡ Input refusal };

    fn from(refusal: Refusal) -> Refused {
        Refused::Input(refusal)
    }
}

// Methods and no trait: desk_job and book have such pairs of numbers too. A trait with its law would be ten lines, and two more in each of the three types,
// and would save none, since each type has both methods to write in any case.
impl Refused {
    // The refusal's number: 1 to 12, 15 or 16; 13; or 17.
    pub fn number(self) -> u64
        ensures { result ≡ refused_number self }
    {
        match self {
            Refused::Input(refusal) => refusal.fault.number(),
            Refused::OutputSpace(_) => 13,
            Refused::MapSpace(_) => 17,
        }
    }

    // The second number: the place, or what is needed.
    pub fn value(self) -> u64
        ensures { result ≡ refused_value self }
    {
        let value = match self {
            Refused::Input(refusal) => refusal.at,
            Refused::OutputSpace(length) => length,
            Refused::MapSpace(count) => count,
        };
        value as u64
    }
}

// What both calls answer, as two numbers, since the C interface has them so: 0 and a length, or a refusal's number and its second number.
#[repr(C)]
#[derive(Clone, Copy, PartialEq, Eq)]
pub struct Answer {
    pub number: u64,
    pub value: u64,
}

impl From<Result<usize, Refused>> for Answer {
    ghost from_gives = { λ called answer. answer ≡ answer_of called };

    fn from(called: Result<usize, Refused>) -> Answer {
        match called {
            Ok(length) => Answer {
                number: 0,
                value: length as u64,
            },
            Err(refused) => Answer {
                number: refused.number(),
                value: refused.value(),
            },
        }
    }
}
