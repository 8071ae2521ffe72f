// The layout state of context.rs. Each method takes the context and hands the next one back. What it writes goes to the write
// position of the lent `out`, as far as `out` goes, so that measuring is the same code over an `out` of no bytes.
#![tactic(auto)]

mod buffer;

ghost use Rattle.std.specs.Prelude.{◌≡◌, [], ◌∷◌, ◌++◌, ◌+◌, ◌^◌, ◌≤◌, ◌<◌, length, replicate};
ghost use Rattle.context.specs.Cells.{bytes_of, fixed, fresh, token_text};
ghost use Rattle.context.specs.Context.{
  after_write,
  dedent,
  indent,
  lead,
  note_skipped_whitespace,
  take_pending_blank_line,
  take_pending_newline,
  write_newline,
  write_raw,
  write_space,
  write_token,
};
ghost use Rattle.utf8.specs.Trimming.{trimmed_after};
ghost use Rattle.context.specs.Store.{Changed, Room, Took, Wrote, advanced, after_text, new, stored};

pub use buffer::{copy, count_newlines, put, put_in_case, put_short};
use std::mem;
use utf8::{is_white_byte, trimmed_length};

// What the caller sets. The width is bounded where it is asked for and not in the type, since the definition of the layout has every width. The flag is a
// setting of its own and says of no other field whether it holds.
#[derive(Clone, Copy)]
pub struct FormatConfig {
    pub indent_width: usize,
    pub uppercase_keywords: bool,
}

// Eight bytes, with none between the fields, which would be copied with them. The flags are marks of the source's context, each
// of its own.
#[derive(Clone, Copy)]
pub struct State {
    pub indent_level: u32,
    pub at_line_start: bool,
    pub needs_space: bool,
    // Skipped white space held a newline: a following comment may start a line.
    pub pending_newline: bool,
    // Skipped white space held a blank line, that is two newlines or more.
    pub pending_blank_line: bool,
}

// How many bytes were written, and how many of them are left once the trailing white space is dropped. Counts and no slice: the lent space may be shorter.
#[derive(Clone, Copy)]
pub struct Position {
    pub length: usize,
    pub trimmed: usize,
}

#[derive(Clone, Copy)]
pub struct FormatterContext {
    pub state: State,
    pub position: Position,
}

// Token::text, as a part of the lent text. The span comes from a checked tape, so it lies within the text.
#[tactic(auto, unfolding(basics::specs::Bytes::token_text))]
pub fn token_text(source: &[u8], start: usize, end: usize) -> &[u8]
    requires { (start ≤ end) × (end ≤ length source.now) }
    ensures { result.now ≡ token_text source.now start end }
{
    &source[start..end]
}

impl State {
    // How many blanks stand before a token. A choice between two numbers, since the machine can't guess which way a test would go.
    fn lead_blanks(self, config: FormatConfig) -> usize
        requires { (self.indent_level ≤ 2 ^ 20) × (config.indent_width ≤ 16) }
        ensures { (bytes_of (lead config self) ≡ replicate result 32) × (result ≤ 2 ^ 24) }
    {
        let indent = self.indent_level as usize * config.indent_width;
        let blank = usize::from(self.needs_space);
        if self.at_line_start { indent } else { blank }
    }

    fn after_write(mut self, line_start: bool) -> State
        ensures { result ≡ after_write line_start self }
    {
        self.at_line_start = line_start;
        self.needs_space = false;
        self.pending_newline = false;
        self.pending_blank_line = false;
        self
    }
}

impl Position {
    // The position after so many blanks and a text.
    fn after(self, blanks: usize, text: &[u8]) -> Position
        requires { self.length + blanks + length text.now < 2 ^ 64 }
        ensures { result ≡ advanced (replicate blanks 32 ++ text.now) self }
    {
        self.after_text(blanks, text.len(), trimmed_length(text))
    }

    // The same of a text of n bytes, j of which are left once its trailing white space is dropped.
    fn after_text(self, blanks: usize, n: usize, j: usize) -> Position
        requires { (self.length + blanks + n < 2 ^ 64) × (j ≤ n) }
        ensures { result ≡ record { length = self.length + blanks + n; trimmed = trimmed_after (self.length + blanks) self.trimmed j } }
    {
        let from = self.length + blanks;
        Position {
            length: from + n,
            trimmed: buffer::trimmed_after(from, self.trimmed, j),
        }
    }

    // The position after so many blanks and a byte.
    fn after_byte(self, blanks: usize, b: u8) -> Position
        requires { self.length + blanks + 1 < 2 ^ 64 }
        ensures { result ≡ advanced (replicate blanks 32 ++ (b ∷ [])) self }
    {
        // A count, as `trimmed_length` would answer.
        let left = if is_white_byte(b) { 0 } else { 1 };
        self.after_text(blanks, 1, left)
    }
}

// A method that writes asks for room, so that no sum wraps, and for a width and a text within the limits that the entry tests. `Room n` is room for n
// writes: each function asks for as many as it makes. A type that counts them down would need a computed const argument, which Rattle has not.
// The context goes by value, in all crates, beside the settings, the output space and the token, since a struct of them would go through memory at each
// token.
impl FormatterContext {
    // No derived Default: at the beginning a line starts.
    pub fn new() -> FormatterContext
        ensures { result ≡ new }
    {
        FormatterContext {
            state: State {
                indent_level: 0,
                at_line_start: true,
                needs_space: false,
                pending_newline: false,
                pending_blank_line: false,
            },
            position: Position {
                length: 0,
                trimmed: 0,
            },
        }
    }

    // How many blanks stand before a token.
    pub fn lead_blanks(self, config: FormatConfig) -> usize
        requires { (self.state.indent_level ≤ 2 ^ 20) × (config.indent_width ≤ 16) }
        ensures { (bytes_of (lead config self.state) ≡ replicate result 32) × (result ≤ 2 ^ 24) }
    {
        self.state.lead_blanks(config)
    }

    // What write_token hands back once `put` has written so many blanks and a text of n bytes, and has answered j.
    pub fn after_text(self, blanks: usize, n: usize, j: usize) -> FormatterContext
        requires { (self.position.length + blanks + n < 2 ^ 64) × (j ≤ n) }
        ensures { result ≡ after_text blanks n j self }
    {
        FormatterContext {
            state: self.state.after_write(false),
            position: self.position.after_text(blanks, n, j),
        }
    }

    pub fn write_newline(self, out: &mut [u8]) -> FormatterContext
        requires { Room 1 self }
        ensures { Wrote 1 (stored (write_newline self.state) (self, out.old)) self result out.new }
    {
        buffer::fill_at(out, self.position.length, 1, b'\n');
        FormatterContext {
            state: self.state.after_write(true),
            position: self.position.after_byte(0, b'\n'),
        }
    }

    pub fn write_token(self, config: FormatConfig, out: &mut [u8], text: &[u8]) -> FormatterContext
        requires room { Room 1 self }
        requires indent_width_bound { (config.indent_width ≤ 16) × (length text.now ≤ 2 ^ 18) }
        ensures { Wrote 1 (stored (write_token config (fixed text.now) self.state) (self, out.old)) self result out.new }
    {
        let at = self.position.length;
        let blanks = self.lead_blanks(config);
        buffer::fill_at(out, at, blanks, 32);
        buffer::copy_at(out, at + blanks, text);
        FormatterContext {
            state: self.state.after_write(false),
            position: self.position.after(blanks, text),
        }
    }

    // write_token of one byte, as of `","`.
    pub fn write_sign(self, config: FormatConfig, out: &mut [u8], sign: u8) -> FormatterContext
        requires room { Room 1 self }
        requires indent_width_bound { config.indent_width ≤ 16 }
        ensures { Wrote 1 (stored (write_token config (fresh sign ∷ []) self.state) (self, out.old)) self result out.new }
    {
        self.write_token(config, out, &[sign])
    }

    pub fn is_at_line_start(self) -> bool
        ensures { result ≡ self.state.at_line_start }
    {
        self.state.at_line_start
    }

    #[tactic(auto, unfolding(crate::specs::Context::write_space))]
    pub fn write_space(mut self) -> FormatterContext
        ensures { Changed 0 (write_space self.state) self result }
    {
        self.state.needs_space |= !self.state.at_line_start;
        self
    }

    #[tactic(auto, unfolding(crate::specs::Context::note_skipped_whitespace))]
    pub fn note_skipped_whitespace(mut self, text: &[u8]) -> FormatterContext
        ensures { Changed 0 (note_skipped_whitespace text.now self.state) self result }
    {
        let n = buffer::count_newlines(text);
        self.state.pending_newline |= 1 <= n;
        self.state.pending_blank_line |= 2 <= n;
        self
    }

    // The mark, and the context without it. This and the next are no plainer as one: it would be told which field to take.
    #[tactic(auto, unfolding(crate::specs::Context::take_pending_newline))]
    pub fn take_pending_newline(mut self) -> (bool, FormatterContext)
        ensures { Took (take_pending_newline self.state) self result }
    {
        (mem::take(&mut self.state.pending_newline), self)
    }

    #[tactic(auto, unfolding(crate::specs::Context::take_pending_blank_line))]
    pub fn take_pending_blank_line(mut self) -> (bool, FormatterContext)
        ensures { Took (take_pending_blank_line self.state) self result }
    {
        (mem::take(&mut self.state.pending_blank_line), self)
    }

    #[tactic(auto, unfolding(crate::specs::Context::indent))]
    pub fn indent(mut self) -> FormatterContext
        requires { Room 1 self }
        ensures { Changed 1 (indent self.state) self result }
    {
        self.state.indent_level += 1;
        self
    }

    #[tactic(auto, unfolding(crate::specs::Context::dedent))]
    pub fn dedent(mut self) -> FormatterContext
        ensures { Changed 0 (dedent self.state) self result }
    {
        self.state.indent_level = self.state.indent_level.saturating_sub(1);
        self
    }

    // The text as it stands, with no indent and no blank before it.
    pub fn write_raw(self, out: &mut [u8], text: &[u8]) -> FormatterContext
        requires room { Room 1 self }
        requires text_len_bound { length text.now ≤ 2 ^ 18 }
        ensures { Wrote 1 (stored (write_raw (fixed text.now) self.state) (self, out.old)) self result out.new }
    {
        buffer::copy_at(out, self.position.length, text);
        FormatterContext {
            state: self.state.after_write(buffer::ends_in_newline(text)),
            position: self.position.after(0, text),
        }
    }
}
