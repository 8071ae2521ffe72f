// Reading one command of the tape, numbers low byte first. The readers ask for bytes within the tape: the check has tested it. They take the tape and a
// place, since a refusal, a `Head` and a walk name the place.
ghost use Rattle.std.specs.Prelude.{◌≡◌, not, ◌&&◌, ◌+◌, ◌<◌, ◌≤◌, take, drop, length, eqb, is_ok, MatchResult};
ghost use Rattle.tape.specs.Kinds.{not_carried, BareWord};
ghost use Rattle.tape.specs.Tape.{u16_at, u32_at, head_at, tests_of, length_alone, command_at, check_open, check_token, KnownText};
ghost use Rattle.tape.specs.ReadCommands.{sort_of, ReadAt, cut_at, placed};

use crate::{Fault, Head, Refusal, syntax_kind};
use utf8::{is_ascii, is_boundary};

// The first byte of a command. The check reads commands as an enum; a walk over a checked tape compares the byte alone.
pub const OPEN: u8 = 1;

pub const TOKEN: u8 = 2;

pub const CLOSE: u8 = 3;

// A command as it is read: an open and a token with their operands.
#[derive(Clone, Copy)]
pub(crate) enum ReadCommand {
    Open(Head),
    Token(Head),
    Close,
}

// A well-formed text, of which so many bytes at the start are known to be ASCII.
#[derive(Clone, Copy)]
pub(crate) struct WellFormedText<'a> {
    pub(crate) text: &'a [u8],
    pub(crate) ascii: usize,
    ghost known: { KnownText text.now ascii },
}

// So many bytes at a place, for what stores numbers as the tape does.
pub fn bytes_at<const N: usize>(bytes: &[u8], at: usize) -> [u8; N]
    requires { at + N ≤ length bytes.now }
    ensures { result ≡ take N (drop at bytes.now) }
{
    *bytes[at..].first_chunk().unwrap()
}

// The number of two bytes at a place. Not by bytes_at, here and in u32_at: its test of the length takes 13 % more for group-by-63.
pub fn u16_at(bytes: &[u8], at: usize) -> u16
    requires { at + 2 ≤ length bytes.now }
    ensures { result ≡ u16_at bytes.now at }
{
    u16::from_le_bytes([bytes[at], bytes[at + 1]])
}

// The number of four bytes at a place.
pub fn u32_at(bytes: &[u8], at: usize) -> u32
    requires { at + 4 ≤ length bytes.now }
    ensures { result ≡ u32_at bytes.now at }
{
    u32::from_le_bytes([bytes[at], bytes[at + 1], bytes[at + 2], bytes[at + 3]])
}

// The operands of the open or the token at `at`, which must be whole.
pub fn head_at(tape: &[u8], at: usize) -> Head
    requires { at + 11 ≤ length tape.now }
    ensures { result ≡ head_at tape.now at }
{
    Head {
        kind: u16_at(tape, at + 1),
        start: u32_at(tape, at + 3) as usize,
        end: u32_at(tape, at + 7) as usize,
        at,
    }
}

// 7: the operands at `at`, where the command is whole.
fn whole_head(tape: &[u8], at: usize) -> Result<Head, Refusal>
    requires { at < length tape.now }
    ensures { MatchResult result (λ h. (at + 11 ≤ length tape.now) × (h ≡ head_at tape.now at)) (λ r. (length tape.now < at + 11) × (r ≡ cut_at at)) }
{
    if tape.len() < at + 11 {
        return Err(Refusal {
            fault: Fault::CutCommand,
            at,
        });
    }
    Ok(head_at(tape, at))
}

// 6 and 7: the command at `at`.
pub(crate) fn command_at(tape: &[u8], at: usize) -> Result<ReadCommand, Refusal>
    requires { at < length tape.now }
    ensures sort { command_at tape.now at ≡ sort_of result }
    ensures place { ReadAt tape.now at result }
{
    match tape[at] {
        OPEN => Ok(ReadCommand::Open(whole_head(tape, at)?)),
        TOKEN => Ok(ReadCommand::Token(whole_head(tape, at)?)),
        CLOSE => Ok(ReadCommand::Close),
        _ => Err(Refusal {
            fault: Fault::UnknownCommand,
            at,
        }),
    }
}

// Whether nodes of the kind are not carried. Those below 64 in a `match` of their own, which becomes a test of one bit; two arms, since keys that are
// neighbours would become ranges.
fn not_carried(kind: u16) -> bool
    ensures { result ≡ not_carried kind }
{
    if 63 < kind {
        return (kind == syntax_kind::INSERT_VALUES_CLAUSE)
            | (kind == syntax_kind::COLUMN_DEFINITION_LIST);
    }
    match kind {
        syntax_kind::INSERT_STATEMENT
        | syntax_kind::CREATE_STATEMENT
        | syntax_kind::SET_STATEMENT
        | syntax_kind::EXPLAIN_STATEMENT
        | syntax_kind::TABLE_DEFINITION
        | syntax_kind::VIEW_DEFINITION
        | syntax_kind::DICTIONARY_DEFINITION
        | syntax_kind::ENGINE_CLAUSE => true,
        syntax_kind::ALTER_STATEMENT
        | syntax_kind::DATABASE_DEFINITION
        | syntax_kind::MATERIALIZED_VIEW_DEFINITION => true,
        _ => false,
    }
}

// 8 to 11 for the open of a node, with `depth` nodes open before it and a text of the length: whether nothing is found, in one test.
fn sound_open(len: usize, depth: usize, h: Head) -> bool
    ensures { result ≡ is_ok (check_open (length_alone len) depth h) }
{
    let known = h.kind <= syntax_kind::ERROR_MAX_QUERY_SIZE_EXCEEDED;
    let within = (h.end < h.start) | (h.end <= len);
    known & !not_carried(h.kind) & within & (depth < 64)
}

// 8 and 10 for a token, in the same way. Apart from sound_open: a span that runs backwards passes there and not here, and a token has no depth, so that
// only the first test is alike. Nor are open_finding and token_finding one.
fn sound_token(len: usize, t: Head) -> bool
    ensures { result ≡ is_ok (check_token (length_alone len) t) }
{
    let known = t.kind <= syntax_kind::ERROR_MAX_QUERY_SIZE_EXCEEDED;
    known & (t.start <= t.end) & (t.end <= len)
}

impl WellFormedText<'_> {
    // What the tests of an open find. In a span that ends among the ASCII bytes at the text's start neither 15 nor 16 is found, so that one test is
    // enough.
    pub(crate) fn check_open(self, depth: usize, h: Head) -> Result<(), Refusal>
        ensures { result ≡ placed h.at (check_open (tests_of self.entry.text.now) depth h) }
    {
        if sound_open(self.ascii, depth, h) {
            return Ok(());
        }
        self.open_finding(depth, h)
            .map_err(|fault| Refusal { fault, at: h.at })
    }

    // The same of a token.
    pub(crate) fn check_token(self, t: Head) -> Result<(), Refusal>
        ensures { result ≡ placed t.at (check_token (tests_of self.entry.text.now) t) }
    {
        if sound_token(self.ascii, t) {
            return Ok(());
        }
        self.token_finding(t)
            .map_err(|fault| Refusal { fault, at: t.at })
    }

    // 8, 9, 10, 15 and 11 for the open of a node, one after the other.
    fn open_finding(self, depth: usize, h: Head) -> Result<(), Fault>
        ensures { result ≡ check_open (tests_of self.entry.text.now) depth h }
    {
        if syntax_kind::ERROR_MAX_QUERY_SIZE_EXCEEDED < h.kind {
            return Err(Fault::UnknownKind);
        }
        if not_carried(h.kind) {
            return Err(Fault::KindNotCarried);
        }
        if h.start <= h.end {
            if self.text.len() < h.end {
                return Err(Fault::SpanOutside);
            }
            if !self.at_bounds(h) {
                return Err(Fault::InsideCharacter);
            }
        }
        if depth < 64 {
            return Ok(());
        }
        Err(Fault::TooDeep)
    }

    // 8, 10, 15 and 16 for a token, in the same way.
    fn token_finding(self, t: Head) -> Result<(), Fault>
        ensures { result ≡ check_token (tests_of self.entry.text.now) t }
    {
        if syntax_kind::ERROR_MAX_QUERY_SIZE_EXCEEDED < t.kind {
            return Err(Fault::UnknownKind);
        }
        if t.end < t.start {
            return Err(Fault::SpanOutside);
        }
        if self.text.len() < t.end {
            return Err(Fault::SpanOutside);
        }
        if !self.at_bounds(t) {
            return Err(Fault::InsideCharacter);
        }
        if self.word_not_ascii(t) {
            return Err(Fault::WordNotAscii);
        }
        Ok(())
    }

    // 15: whether a span starts and ends inside no character. A look at two bytes tells.
    fn at_bounds(self, h: Head) -> bool
        ensures { result ≡ not ((tests_of self.entry.text.now).inside_character h) }
    {
        is_boundary(self.text, h.start) & is_boundary(self.text, h.end)
    }

    // 16: whether a token is a BareWord with a byte above 127.
    fn word_not_ascii(self, t: Head) -> bool
        requires { (t.start ≤ t.end) × (t.end ≤ length self.text.now) }
        ensures { result ≡ (eqb t.kind BareWord && (tests_of self.entry.text.now).not_ascii t) }
    {
        if t.kind == syntax_kind::BARE_WORD {
            let start = t.start;
            let end = t.end;
            return !is_ascii(&self.text[start..end]);
        }
        false
    }
}
