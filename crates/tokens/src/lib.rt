// The token helpers of format_node.rs. What `Room n` is, and why the context goes by value: context/src/lib.rt.
#![tactic(auto)]

mod settings;
mod token;

ghost use Rattle.std.specs.Prelude.{◌≡◌, cond, not, ◌&&◌, [], ◌∷◌, ◌+◌, ◌^◌, ◌≤◌, ◌<◌, length, eqb, true};
ghost use Rattle.context.specs.Store.{Room};
ghost use Rattle.context.specs.declared.FormatConfig.{FormatConfig};
ghost use Rattle.context.specs.Cells.{count};
ghost use Rattle.keywords.specs.Words.{is_keyword, is_value_keyword};
ghost use Rattle.tape.specs.Kinds.{Whitespace};
ghost use Rattle.layout.specs.Arms.{blank_line, blank_line_before_comment, line_or_space, newline, write_keyword, write_text};
ghost use Rattle.layout.specs.Calls.{format_error_verbatim};
ghost use Rattle.layout.specs.Routines.{name_before, space_after, space_if, spaced};
ghost use Rattle.layout.specs.Tokens.{emit_comment, emit_other, emit_token, is_line_comment, is_operator, no_space_after, no_space_before};
ghost use Rattle.tokens.specs.TokenPromises.{ActedOn, ArmActed, ArmDone, PutText, Ran, Spaced, SpacedUnwritten, casing_of, emit_trivia, emit_uncommented, in_case, is_trivia, spaced_token, write_by};

use context::{FormatConfig, FormatterContext, put, put_in_case, put_short, token_text};
use keywords::{Word, word_of};
use layout::Local;
pub use settings::Settings;
use tape::{Head, syntax_kind};
pub use token::Token;
use utf8::trimmed_length;

// After a token: the context, and the routine's local variables.
#[derive(Clone, Copy)]
pub struct Arm {
    pub context: FormatterContext,
    pub local: Local,
}

#[tactic(auto, unfolding(layout::specs::Tokens::no_space_before))]
pub fn no_space_before(kind: u16) -> bool
    ensures { result ≡ no_space_before kind }
{
    matches!(
        kind,
        syntax_kind::COMMA
            | syntax_kind::SEMICOLON
            | syntax_kind::CLOSING_ROUND_BRACKET
            | syntax_kind::CLOSING_SQUARE_BRACKET
            | syntax_kind::CLOSING_CURLY_BRACE
            | syntax_kind::DOT
            | syntax_kind::DOUBLE_COLON
    )
}

#[tactic(auto, unfolding(layout::specs::Tokens::no_space_after))]
pub fn no_space_after(kind: u16) -> bool
    ensures { result ≡ no_space_after kind }
{
    matches!(
        kind,
        syntax_kind::OPENING_ROUND_BRACKET
            | syntax_kind::OPENING_SQUARE_BRACKET
            | syntax_kind::OPENING_CURLY_BRACE
            | syntax_kind::DOT
            | syntax_kind::DOUBLE_COLON
            | syntax_kind::AT
            | syntax_kind::DOUBLE_AT
    )
}

#[tactic(auto, unfolding(layout::specs::Tokens::is_operator))]
pub fn is_operator(kind: u16) -> bool
    ensures { result ≡ is_operator kind }
{
    matches!(
        kind,
        syntax_kind::PLUS
            | syntax_kind::MINUS
            | syntax_kind::STAR
            | syntax_kind::SLASH
            | syntax_kind::PERCENT
            | syntax_kind::EQUALS
            | syntax_kind::NOT_EQUALS
            | syntax_kind::LESS
            | syntax_kind::GREATER
            | syntax_kind::LESS_OR_EQUALS
            | syntax_kind::GREATER_OR_EQUALS
            | syntax_kind::SPACESHIP
            | syntax_kind::CONCATENATION
    )
}

// Whether something went before that may be followed by a space.
#[tactic(auto, unfolding(layout::specs::Routines::space_after))]
pub fn space_after(prev: Option<u16>) -> bool
    ensures { result ≡ space_after prev }
{
    prev.is_some_and(|kind| !no_space_after(kind))
}

// Whether a name went before.
#[tactic(auto, unfolding(layout::specs::Routines::name_before))]
pub fn name_before(prev: Option<u16>) -> bool
    ensures { result ≡ name_before prev }
{
    matches!(
        prev,
        Some(syntax_kind::BARE_WORD | syntax_kind::QUOTED_IDENTIFIER)
    )
}

// write_space where it is wanted. One function for this, newline_if, and indent_if and dedent_if of clauses would take a closure, which each call had to
// write out.
pub fn space_if(ctx: FormatterContext, wanted: bool) -> FormatterContext
    ensures { SpacedUnwritten 0 (space_if wanted) ctx result }
{
    if wanted { ctx.write_space() } else { ctx }
}

// Which texts are written in upper or lower case: none; the words on the list that are no values.
#[derive(Clone, Copy, PartialEq, Eq)]
enum Casing {
    AsTyped,
    Listed,
}

impl Casing {
    // emit_token asks the list for bare words.
    fn of(kind: u16) -> Casing
        ensures { result ≡ casing_of kind }
    {
        match kind {
            syntax_kind::BARE_WORD => Casing::Listed,
            _ => Casing::AsTyped,
        }
    }

    fn changes(self, text: &[u8]) -> bool
        ensures { result ≡ in_case self text.now }
    {
        match self {
            Casing::AsTyped => false,
            Casing::Listed => is_cased(text),
        }
    }
}

// Whether it is a word on the list that is no value.
fn is_cased(text: &[u8]) -> bool
    ensures { result ≡ (is_keyword text.now && not (is_value_keyword text.now)) }
{
    matches!(word_of(text), Word::Keyword(_))
}

// So many blanks and a text from offset `at` on, in upper or lower case where that is wanted. The answer is that of `put`. A text that is handed on as
// `&text[..]` stays in registers. So do the numbers, which a struct would not: this and put_text are calls of their own.
#[inline(never)]
fn put_any(
    out: &mut [u8],
    at: usize,
    blanks: usize,
    text: &[u8],
    casing: Casing,
    settings: &Settings,
) -> usize
    requires { at + blanks < 2 ^ 64 }
    ensures { PutText at blanks text.now (in_case casing text.now) settings.now.config.uppercase_keywords out.old result out.new }
{
    if casing.changes(&text[..]) {
        return put_in_case(
            out,
            at,
            blanks,
            settings.config.uppercase_keywords,
            &text[..],
        );
    }
    put(out, at, blanks, &text[..])
}

// What put_any does. Where nothing is written any more the case does not matter, and the list is not looked at. Most texts are short and as typed, and are
// written or measured here, where few registers are needed. On its own, so that what calls it stays in the loop over a node's children.
#[inline(never)]
fn put_text(
    out: &mut [u8],
    at: usize,
    blanks: usize,
    text: &[u8],
    casing: Casing,
    settings: &Settings,
) -> usize
    requires { at + blanks + length text.now < 2 ^ 64 }
    ensures { PutText at blanks text.now (in_case casing text.now) settings.now.config.uppercase_keywords out.old result out.new }
{
    if out.len() <= at {
        return trimmed_length(&text[..]);
    }
    if casing == Casing::AsTyped
        && blanks <= 1
        && text.len() <= 16
        && at + blanks + text.len() <= out.len()
    {
        return put_short(out, at, blanks, &text[..]);
    }
    put_any(out, at, blanks, &text[..], casing, settings)
}

// write_token or write_keyword of the token's text, by its casing. This and what calls it go into the loop over a node's children, where the context stays
// in registers.
#[inline(always)]
fn write(
    settings: &Settings,
    out: &mut [u8],
    ctx: FormatterContext,
    token: Token,
    casing: Casing,
) -> FormatterContext
    requires { Room 1 ctx }
    ensures { ActedOn 1 settings.now.config token.entry.text.now (write_by (in_case casing token.entry.text.now)) ctx out.old result out.new }
{
    let blanks = ctx.lead_blanks(settings.config);
    let trimmed = put_text(
        out,
        ctx.position.length,
        blanks,
        token.text,
        casing,
        settings,
    );
    ctx.after_text(blanks, token.text.len(), trimmed)
}

// write_token of the token's text.
pub fn write_text(
    settings: &Settings,
    out: &mut [u8],
    ctx: FormatterContext,
    token: Token,
) -> FormatterContext
    requires { Room 1 ctx }
    ensures { ActedOn 1 settings.now.config token.entry.text.now (write_text ∷ []) ctx out.old result out.new }
{
    write(settings, out, ctx, token, Casing::AsTyped)
}

// write_keyword of the token's text. Not by `write`, which would take it through put_text: with that group-by-63 took about 30 % more.
#[inline(always)]
pub fn write_word(
    settings: &Settings,
    out: &mut [u8],
    ctx: FormatterContext,
    token: Token,
) -> FormatterContext
    requires { Room 1 ctx }
    ensures { ActedOn 1 settings.now.config token.entry.text.now (write_keyword ∷ []) ctx out.old result out.new }
{
    let blanks = ctx.lead_blanks(settings.config);
    let uppercase = settings.config.uppercase_keywords;
    let trimmed = put_in_case(out, ctx.position.length, blanks, uppercase, token.text);
    ctx.after_text(blanks, token.text.len(), trimmed)
}

#[inline(always)]
pub fn emit_token(
    settings: &Settings,
    out: &mut [u8],
    ctx: FormatterContext,
    token: Token,
) -> FormatterContext
    requires { Room 1 ctx }
    ensures { ArmActed 1 settings.now token.entry emit_token ctx out.old result out.new }
{
    if token.kind == syntax_kind::WHITESPACE {
        return ctx;
    }
    write(settings, out, ctx, token, Casing::of(token.kind))
}

// emit_token after a space, where it is wanted.
#[inline(always)]
pub fn emit_spaced(
    settings: &Settings,
    out: &mut [u8],
    ctx: FormatterContext,
    token: Token,
    wanted: bool,
) -> FormatterContext
    requires { Room 1 ctx }
    ensures { ArmActed 1 settings.now token.entry (λ t. spaced wanted (emit_token t)) ctx out.old result out.new }
{
    let a = space_if(ctx, wanted);
    emit_token(settings, out, a, token)
}

fn is_line_comment(text: &[u8]) -> bool
    ensures { result ≡ is_line_comment text.now }
{
    text.starts_with(b"--")
}

// A newline where it is wanted.
pub fn newline_if(out: &mut [u8], ctx: FormatterContext, wanted: bool) -> FormatterContext
    requires { Room 1 ctx }
    ensures { Spaced 1 (cond wanted (newline ∷ []) []) ctx out.old result out.new }
{
    if wanted { ctx.write_newline(out) } else { ctx }
}

// format_file before its first node: a newline if a blank line is pending.
pub fn blank_line(out: &mut [u8], ctx: FormatterContext) -> FormatterContext
    requires { Room 1 ctx }
    ensures { Spaced 1 (blank_line ∷ []) ctx out.old result out.new }
{
    let (taken, next) = ctx.take_pending_blank_line();
    newline_if(out, next, taken)
}

// format_file before a comment: the same, unless at line start.
pub fn blank_line_before_comment(out: &mut [u8], ctx: FormatterContext) -> FormatterContext
    requires { Room 1 ctx }
    ensures { Spaced 1 (blank_line_before_comment ∷ []) ctx out.old result out.new }
{
    let (taken, next) = ctx.take_pending_blank_line();
    newline_if(out, next, taken && !next.is_at_line_start())
}

// A pending newline, unless at line start; else a space.
fn line_or_space(out: &mut [u8], ctx: FormatterContext) -> FormatterContext
    requires { Room 1 ctx }
    ensures { Spaced 1 (line_or_space ∷ []) ctx out.old result out.new }
{
    let (taken, next) = ctx.take_pending_newline();
    if taken {
        newline_if(out, next, !next.is_at_line_start())
    } else {
        next.write_space()
    }
}

// A part of `emit_trivia`, so that a context goes to neither through memory: what is stored there in parts and read whole waits for the stores.
#[inline(always)]
pub fn emit_comment(
    settings: &Settings,
    out: &mut [u8],
    ctx: FormatterContext,
    token: Token,
) -> FormatterContext
    requires { Room 3 ctx }
    ensures { ActedOn 3 settings.now.config token.entry.text.now (emit_comment token.entry.text.now) ctx out.old result out.new }
{
    let a = line_or_space(out, ctx);
    let b = a.write_token(settings.config, out, token.text);
    newline_if(out, b, is_line_comment(token.text))
}

pub fn is_trivia(kind: u16) -> bool
    ensures { result ≡ is_trivia kind }
{
    matches!(kind, syntax_kind::WHITESPACE | syntax_kind::COMMENT)
}

// White space or a comment. On its own, so that the arms that call it stay small.
#[inline(never)]
pub fn emit_trivia(
    settings: &Settings,
    out: &mut [u8],
    ctx: FormatterContext,
    token: Token,
) -> FormatterContext
    requires { Room 3 ctx }
    ensures { ActedOn 3 settings.now.config token.entry.text.now (emit_trivia (eqb token.entry.kind Whitespace) token.entry.text.now) ctx out.old result out.new }
{
    if token.kind == syntax_kind::WHITESPACE {
        return ctx.note_skipped_whitespace(token.text);
    }
    emit_comment(settings, out, ctx, token)
}

// Whether it is white space of one byte that is no newline, as most of it is: nothing is to be noted of it.
fn is_blank(token: Token) -> bool
    ensures { result ≡ true → (token.entry.kind ≡ Whitespace) × (count 10 token.entry.text.now ≡ 0) }
{
    token.kind == syntax_kind::WHITESPACE && token.text.len() == 1 && token.text[0] != b'\n'
}

// The arms that most routines share: white space, comments, and any other token. The context that goes to `emit_trivia` is a copy made where it is called, so
// that the one of any other token stays in registers.
#[inline(always)]
pub fn emit_other(
    settings: &Settings,
    out: &mut [u8],
    ctx: FormatterContext,
    token: Token,
) -> FormatterContext
    requires { Room 4 ctx }
    ensures { ArmActed 4 settings.now token.entry emit_other ctx out.old result out.new }
{
    if is_trivia(token.kind) {
        if is_blank(token) {
            return ctx;
        }
        let c = ctx;
        return emit_trivia(settings, out, c, token);
    }
    emit_token(settings, out, ctx, token)
}

// emit_other in a routine without a comment arm, which writes a comment as any other token.
#[inline(always)]
pub fn emit_uncommented(
    settings: &Settings,
    out: &mut [u8],
    ctx: FormatterContext,
    token: Token,
) -> FormatterContext
    requires { Room 4 ctx }
    ensures { ArmActed 4 settings.now token.entry emit_uncommented ctx out.old result out.new }
{
    if token.kind == syntax_kind::COMMENT {
        return emit_token(settings, out, ctx, token);
    }
    emit_other(settings, out, ctx, token)
}

// White space and comments leave the local variables as they are. Any other token goes after a space, where it is wanted, and `left` is what it leaves.
#[inline(always)]
pub fn spaced_token(
    settings: &Settings,
    out: &mut [u8],
    ctx: FormatterContext,
    local: Local,
    token: Token,
    wanted: bool,
    left: Local,
) -> Arm
    requires { Room 4 ctx }
    ensures { ArmDone settings.now token.entry (spaced_token wanted left) local ctx out.old result out.new }
{
    if is_trivia(token.kind) {
        return Arm {
            context: emit_trivia(settings, out, ctx, token),
            local,
        };
    }
    Arm {
        context: emit_spaced(settings, out, ctx, token, wanted),
        local: left,
    }
}

// The text of a node whose span, if it does not run backwards, lies within the text.
pub fn format_error_verbatim(
    source: &[u8],
    out: &mut [u8],
    ctx: FormatterContext,
    node: Head,
) -> FormatterContext
    requires { (length source.now ≤ 262144) × (node.start ≤ node.end → node.end ≤ length source.now) × Room 1 ctx }
    ensures { (config : FormatConfig) → Ran 1 config source.now (format_error_verbatim node) ctx out.old result out.new }
{
    if node.end < node.start {
        return ctx;
    }
    ctx.write_raw(out, token_text(source, node.start, node.end))
}
