// The token map: what the loops of the routines note while the tree is walked, and lines and columns of what was noted. A plain layout lends a map of
// no numbers. A place is a number from 1 here and in the map, and 0 says none: the map is the C interface's array of numbers, and there is no other memory.
#![tactic(auto)]

ghost use Rattle.std.specs.Prelude.{◌≡◌, cond, ◌+◌, ◌-◌, ◌≤◌, ◌<◌, ◌^◌, ◌||◌, eqb, length, replicate, take};
ghost use Rattle.basics.specs.Match.{among};
ghost use Rattle.tape.specs.Kinds;
ghost use Rattle.token_map.specs.Signs.{dropped_kinds, place_as, place_from, sign_kinds, written_as};
ghost use Rattle.token_map.specs.Notes.{note_all, noted};
ghost use Rattle.layout.specs.TokenMap.{entry};
ghost use Rattle.token_map.specs.Spots.{EndsAt, LineOf, spots};

use context::Position;
use tape::syntax_kind;
use utf8::trimmed_length;

// For which kinds a routine writes a fixed sign. One with NoSemicolon writes none, and nothing for a Semicolon.
#[derive(Clone, Copy)]
pub enum Signs {
    Nothing,
    Semicolon,
    NoSemicolon,
    Comma,
    Minus,
    RoundBrackets,
    CommaRoundBrackets,
    CommaSquareBrackets,
    CommaColonCurlyBraces,
}

// What is written for a token.
#[derive(Clone, Copy)]
pub enum Written {
    Nothing,
    Text,
    Sign,
}

// A line of the bytes: its number from 1, the offset of its first byte, and that of the newline that ends it. The last line ends where the bytes end.
#[derive(Clone, Copy)]
pub struct Line {
    pub number: u64,
    pub start: usize,
    pub end: usize,
}

// A search for lines of `out`, and the line where it stands.
#[derive(Drop)]
struct Lines<'a> {
    out: &'a [u8],
    line: Line,
    ghost is_line: { LineOf out.now line },
}

// Whether a fixed sign is written for a kind.
fn is_sign(signs: Signs, kind: u16) -> bool
    ensures { result ≡ among kind (sign_kinds signs) }
{
    match signs {
        Signs::Nothing | Signs::NoSemicolon => false,
        Signs::Semicolon => kind == syntax_kind::SEMICOLON,
        Signs::Comma => kind == syntax_kind::COMMA,
        Signs::Minus => kind == syntax_kind::MINUS,
        Signs::RoundBrackets => matches!(
            kind,
            syntax_kind::OPENING_ROUND_BRACKET | syntax_kind::CLOSING_ROUND_BRACKET
        ),
        Signs::CommaRoundBrackets => matches!(
            kind,
            syntax_kind::COMMA
                | syntax_kind::OPENING_ROUND_BRACKET
                | syntax_kind::CLOSING_ROUND_BRACKET
        ),
        Signs::CommaSquareBrackets => matches!(
            kind,
            syntax_kind::COMMA
                | syntax_kind::OPENING_SQUARE_BRACKET
                | syntax_kind::CLOSING_SQUARE_BRACKET
        ),
        Signs::CommaColonCurlyBraces => matches!(
            kind,
            syntax_kind::COMMA
                | syntax_kind::COLON
                | syntax_kind::OPENING_CURLY_BRACE
                | syntax_kind::CLOSING_CURLY_BRACE
        ),
    }
}

// Whether nothing is written for a kind.
fn is_dropped(signs: Signs, kind: u16) -> bool
    ensures { result ≡ (eqb kind Kinds.Whitespace || among kind (dropped_kinds signs)) }
{
    kind == syntax_kind::WHITESPACE
        || kind == syntax_kind::SEMICOLON && matches!(signs, Signs::NoSemicolon)
}

#[tactic(auto, unfolding(crate::specs::Signs::written_as))]
fn written_as(signs: Signs, kind: u16) -> Written
    ensures { result ≡ written_as signs kind }
{
    if is_dropped(signs, kind) {
        Written::Nothing
    } else if is_sign(signs, kind) {
        Written::Sign
    } else {
        Written::Text
    }
}

// The place of the first of the n bytes that end at `end`.
fn place_before(end: usize, n: usize) -> usize
    requires { 0 < n }
    ensures { result ≡ end - n + 1 }
{
    end.saturating_sub(n) + 1
}

// The place of a text that was written last. A text of white space does not show in what trimming leaves.
#[tactic(auto, unfolding(crate::specs::Signs::place_as))]
fn place_of_text(text: &[u8], p: Position) -> usize
    requires { 0 < length text.now }
    ensures { result ≡ place_as Written.Text text.now p }
{
    let j = trimmed_length(text);
    if j == 0 {
        return place_before(p.length, text.len());
    }
    place_before(p.trimmed, j)
}

// The place of a token of the kind with the text, from the position after its arm; 0, which is no place, for an empty text.
#[tactic(auto, unfolding(crate::specs::Signs::place_as, crate::specs::Signs::place_from))]
fn place_from(signs: Signs, kind: u16, text: &[u8], p: Position) -> usize
    ensures { result ≡ place_from signs kind text.now p }
{
    if text.is_empty() {
        return 0;
    }
    match written_as(signs, kind) {
        Written::Nothing => 0,
        Written::Sign => p.trimmed,
        Written::Text => place_of_text(text, p),
    }
}

// A place more. The last number of the map is the index of the next pair: there is no memory beside the map, and a plain layout lends none.
#[tactic(auto, using(std::proofs::lemmas::Bool::Decides::nat_tests), unfolding(crate::specs::Notes::noted))]
fn note_place(map: &mut [u64], place: usize)
    ensures { map.new ≡ noted place map.old }
{
    let Some((last, places)) = map.split_last_mut() else {
        return;
    };
    let next = *last as usize;
    if next < places.len() {
        places[next] = place as u64;
        *last = next as u64 + 2;
    }
}

#[inline(never)]
fn note_written(map: &mut [u64], kind: u16, text: &[u8], p: Position, signs: Signs)
    ensures { map.new ≡ noted (place_from signs kind text.now p) map.old }
{
    note_place(map, place_from(signs, kind, text, p));
}

// Notes a token of the kind with the text, right after its arm: p is the position then. Only the test goes into the loops of the routines. Kind and text
// stand apart, since a struct of both would go through memory at each token.
#[inline(always)]
#[tactic(auto, using(std::proofs::lemmas::Bool::Decides::nat_tests), unfolding(crate::specs::Notes::noted))]
pub fn note_token(map: &mut [u64], kind: u16, text: &[u8], p: Position, signs: Signs)
    ensures { map.new ≡ noted (place_from signs kind text.now p) map.old }
{
    if map.is_empty() {
        return;
    }
    note_written(map, kind, text, p, signs);
}

// Notes so many tokens without a place.
#[tactic(auto, unfolding(crate::specs::Notes::note_all))]
pub fn note_none(map: &mut [u64], tokens: usize)
    ensures { map.new ≡ note_all (replicate tokens 0) map.old }
{
    if map.is_empty() {
        return;
    }
    for _ in 0..tokens {
        note_place(map, 0);
    }
}

// All numbers zero, before the walk.
pub fn clear(map: &mut [u64])
    ensures { map.new ≡ replicate (length map.old) 0 }
{
    map.fill(0);
}

// The first numbers of `notes`, as many as the map has. By a loop, as `copy` of context.
pub fn copy_front(map: &mut [u64], notes: &[u64])
    requires { length map.old ≤ length notes.now }
    ensures { map.new ≡ take (length map.old) notes.now }
{
    for (i, place) in map.iter_mut().enumerate() {
        *place = notes[i];
    }
}

// Where a line that goes on at an offset ends, as an offset of all bytes, since columns are told by these. Most of the time goes into this search.
fn newline_from(out: &[u8], from: usize) -> usize
    requires { from ≤ length out.now }
    ensures { EndsAt out.now from result }
{
    let rest = &out[from..];
    match rest.iter().position(|b| *b == 10) {
        Some(n) => from + n,
        None => out.len(),
    }
}

impl<'a> Lines<'a> {
    // At the first line.
    #[tactic(auto, unfolding(layout::specs::Lines::spot_after))]
    fn new(out: &'a [u8]) -> Self
        ensures same { result.out.now ≡ out.now }
        ensures start { result.line.start ≡ 0 }
    {
        let line = Line {
            number: 1,
            start: 0,
            end: newline_from(out, 0),
        };
        Lines { out, line }
    }

    // On to the line after the newline.
    fn advance(&mut self)
        requires newline { self.old.line.end < length self.old.out.now }
        requires counted { self.old.line.end + 2 < 2 ^ 64 }
        ensures same { self.new.out.now ≡ self.old.out.now }
        ensures start { self.new.line.start ≡ self.old.line.end + 1 }
    {
        let start = self.line.end + 1;
        self.line = Line {
            number: self.line.number + 1,
            start,
            end: newline_from(self.out, start),
        };
    }

    // To the line that an offset is in. Only the bytes between the line where the search stands and this one are looked at, unless the offset is before it.
    fn go_to(&mut self, at: usize)
        requires within { at ≤ length self.old.out.now }
        requires counted { at + 1 < 2 ^ 64 }
        ensures same { self.new.out.now ≡ self.old.out.now }
        ensures start { self.new.line.start ≤ at }
        ensures end { at ≤ self.new.line.end }
    {
        if at < self.line.start {
            *self = Lines::new(self.out);
        }
        // No plainer over an iterator of lines: the line where the search stands is kept in any case, and each pass finds where the next one ends.
        while self.line.end < at {
            self.advance();
        }
    }

    // Line and column in the map for a place, 0 and 0 for none. The search goes on from there.
    fn entry_of(&mut self, place: u64, k: usize) -> (u64, u64)
        ensures same { self.new.out.now ≡ self.old.out.now }
        ensures line { result.0 ≡ (entry k self.old.out.now place).line }
        ensures column { result.1 ≡ (entry k self.old.out.now place).column }
    {
        let p = place as usize;
        if p == 0 || k < p {
            return (0, 0);
        }
        // One past the bytes has the line and column of their end.
        let at = (p - 1).min(self.out.len());
        self.go_to(at);
        (self.line.number, (at - self.line.start) as u64 + 1)
    }
}

// The places that were noted become lines and columns of `out`, of which trimming leaves k bytes.
pub fn place_tokens(map: &mut [u64], out: &[u8], k: usize)
    ensures { map.new ≡ spots k out.now map.old }
{
    let mut lines = Lines::new(out);
    // By index, since the library tells nothing of a slice after a walk over its chunks.
    for i in 0..map.len() / 2 {
        let (line, column) = lines.entry_of(map[2 * i], k);
        map[2 * i] = line;
        map[2 * i + 1] = column;
    }
}
