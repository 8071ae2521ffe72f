// What the routines of format_node.rs for lists, expressions and all other nodes do with their children: NAME_token at a token, NAME_before and
// NAME_after around a child node, NAME_end at their end; NAME_local is what the local variables become after a child node. The arms that
// most routines share come last, in `emit_other`. The loops that call these are in the crate `formatter`.
// What `Room n` is, and why the context goes by value: context/src/lib.rt.
#![tactic(auto)]

ghost use Rattle.std.specs.Prelude.{◌≡◌, not, ◌&&◌, eqb};
ghost use Rattle.context.specs.Store.{Room};
ghost use Rattle.tape.specs.Kinds.{OpeningRoundBracket};
ghost use Rattle.layout.specs.declared.Local.{Local};
ghost use Rattle.layout.specs.Arms.{sign_byte};
ghost use Rattle.layout.specs.Tokens.{no_space_before};
ghost use Rattle.layout.specs.Routines.{alter_command_list_token, binary_token, brace_list_token, bracket_list_token, case_token, case_word, comma_list_token, data_type_token, format_case_expression, function_call_token, inline_comma_list_token, inline_tight_parens_token, inline_token, name_before, paren_list_token, passthrough_token, space_after, subquery_token, unary_token, when_token, when_word};
ghost use Rattle.tokens.specs.TokenPromises.{ActedOn, ArmActed, ArmDone, Spaced};
ghost use Rattle.expressions.specs.SharedArms.{closing, list_token, opening};

use context::FormatterContext;
use keywords::is_word;
use layout::Local;
use tape::syntax_kind;
use tokens::{
    Arm, Settings, Token, emit_comment, emit_other, emit_trivia, emit_uncommented, is_operator,
    is_trivia, name_before, newline_if, no_space_before, space_after, spaced_token, write_text,
    write_word,
};

// ---- format_comma_list

pub fn comma_list_token(
    settings: &Settings,
    out: &mut [u8],
    ctx: FormatterContext,
    local: Local,
    token: Token,
) -> Arm
    requires { Room 4 ctx }
    ensures { ArmDone settings.now token.entry comma_list_token local ctx out.old result out.new }
{
    if token.kind == syntax_kind::COMMA {
        return Arm {
            context: ctx
                .write_sign(settings.config, out, b',')
                .write_newline(out),
            local: Local::flagged(true),
        };
    }
    Arm {
        context: emit_other(settings, out, ctx, token),
        local,
    }
}

// ---- format_inline_comma_list

pub fn inline_comma_list_token(
    settings: &Settings,
    out: &mut [u8],
    ctx: FormatterContext,
    token: Token,
) -> FormatterContext
    requires { Room 4 ctx }
    ensures { ArmActed 4 settings.now token.entry inline_comma_list_token ctx out.old result out.new }
{
    if token.kind == syntax_kind::COMMA {
        return ctx.write_sign(settings.config, out, b',').write_space();
    }
    emit_other(settings, out, ctx, token)
}

// ---- format_binary_expression

pub fn binary_expression_token(
    settings: &Settings,
    out: &mut [u8],
    ctx: FormatterContext,
    token: Token,
) -> FormatterContext
    requires { Room 4 ctx }
    ensures { ArmActed 4 settings.now token.entry binary_token ctx out.old result out.new }
{
    if token.kind == syntax_kind::BARE_WORD {
        return write_word(settings, out, ctx.write_space(), token).write_space();
    }
    if is_operator(token.kind) {
        return write_text(settings, out, ctx.write_space(), token).write_space();
    }
    emit_other(settings, out, ctx, token)
}

// ---- format_unary_expression

pub fn unary_expression_token(
    settings: &Settings,
    out: &mut [u8],
    ctx: FormatterContext,
    token: Token,
) -> FormatterContext
    requires { Room 4 ctx }
    ensures { ArmActed 4 settings.now token.entry unary_token ctx out.old result out.new }
{
    if token.kind == syntax_kind::BARE_WORD {
        return write_word(settings, out, ctx, token).write_space();
    }
    if token.kind == syntax_kind::MINUS {
        return ctx.write_sign(settings.config, out, b'-');
    }
    emit_other(settings, out, ctx, token)
}

// ---- format_function_call

pub fn function_call_token(
    settings: &Settings,
    out: &mut [u8],
    ctx: FormatterContext,
    token: Token,
) -> FormatterContext
    requires { Room 4 ctx }
    ensures { ArmActed 4 settings.now token.entry function_call_token ctx out.old result out.new }
{
    if token.kind == syntax_kind::OPENING_ROUND_BRACKET {
        return ctx.write_sign(settings.config, out, b'(');
    }
    if token.kind == syntax_kind::CLOSING_ROUND_BRACKET {
        return ctx.write_sign(settings.config, out, b')');
    }
    if token.kind == syntax_kind::BARE_WORD {
        return write_text(settings, out, ctx, token);
    }
    emit_other(settings, out, ctx, token)
}

// ---- format_case_expression

fn case_word(
    settings: &Settings,
    out: &mut [u8],
    ctx: FormatterContext,
    token: Token,
) -> FormatterContext
    requires { Room 4 ctx }
    ensures { ActedOn 4 settings.now.config token.entry.text.now (case_word token.entry.text.now) ctx out.old result out.new }
{
    if is_word(token.text, b"CASE") {
        return write_word(settings, out, ctx, token).indent();
    }
    if is_word(token.text, b"ELSE") {
        let a = ctx.write_newline(out);
        return write_word(settings, out, a, token).write_space();
    }
    if is_word(token.text, b"END") {
        let a = ctx.dedent().write_newline(out);
        return write_word(settings, out, a, token);
    }
    write_word(settings, out, ctx.write_space(), token)
}

// This and when_clause_token differ in the function that a bare word goes to. A trait of both words, with its law and an impl for each, would be longer
// than the one function that it saves.
pub fn case_expression_token(
    settings: &Settings,
    out: &mut [u8],
    ctx: FormatterContext,
    token: Token,
) -> FormatterContext
    requires { Room 4 ctx }
    ensures { ArmActed 4 settings.now token.entry case_token ctx out.old result out.new }
{
    if token.kind == syntax_kind::BARE_WORD {
        return case_word(settings, out, ctx, token);
    }
    emit_other(settings, out, ctx, token)
}

pub fn case_expression_before(out: &mut [u8], ctx: FormatterContext, kind: u16) -> FormatterContext
    requires { Room 1 ctx }
    ensures { (local : Local) → Spaced 1 (format_case_expression.at_node local kind 0).1 ctx out.old result out.new }
{
    newline_if(out, ctx, kind == syntax_kind::WHEN_CLAUSE)
}

// ---- format_when_clause

fn when_word(
    settings: &Settings,
    out: &mut [u8],
    ctx: FormatterContext,
    token: Token,
) -> FormatterContext
    requires { Room 4 ctx }
    ensures { ActedOn 4 settings.now.config token.entry.text.now (when_word token.entry.text.now) ctx out.old result out.new }
{
    if is_word(token.text, b"WHEN") {
        return write_word(settings, out, ctx, token).write_space();
    }
    if is_word(token.text, b"THEN") {
        return write_word(settings, out, ctx.write_space(), token).write_space();
    }
    write_word(settings, out, ctx, token).write_space()
}

// Beside case_expression_token, which says why they are two.
pub fn when_clause_token(
    settings: &Settings,
    out: &mut [u8],
    ctx: FormatterContext,
    token: Token,
) -> FormatterContext
    requires { Room 4 ctx }
    ensures { ArmActed 4 settings.now token.entry when_token ctx out.old result out.new }
{
    if token.kind == syntax_kind::BARE_WORD {
        return when_word(settings, out, ctx, token);
    }
    emit_other(settings, out, ctx, token)
}

// ---- format_subquery

pub fn subquery_token(
    settings: &Settings,
    out: &mut [u8],
    ctx: FormatterContext,
    token: Token,
) -> FormatterContext
    requires { Room 4 ctx }
    ensures { ArmActed 4 settings.now token.entry subquery_token ctx out.old result out.new }
{
    if token.kind == syntax_kind::OPENING_ROUND_BRACKET {
        return ctx
            .write_sign(settings.config, out, b'(')
            .write_newline(out)
            .indent();
    }
    if token.kind == syntax_kind::CLOSING_ROUND_BRACKET {
        return ctx
            .dedent()
            .write_newline(out)
            .write_sign(settings.config, out, b')');
    }
    emit_other(settings, out, ctx, token)
}

// ---- format_paren_list, format_bracket_list, format_brace_list: no comment arm

// What encloses a list.
#[derive(Clone, Copy)]
enum Brackets {
    Round,
    Square,
    Curly,
}

impl Brackets {
    // The kind of the token that opens the list, and the sign that is written for it.
    fn opening(self) -> (u16, u8)
        ensures { result ≡ ((opening self).0, sign_byte (opening self).1) }
    {
        match self {
            Brackets::Round => (syntax_kind::OPENING_ROUND_BRACKET, b'('),
            Brackets::Square => (syntax_kind::OPENING_SQUARE_BRACKET, b'['),
            Brackets::Curly => (syntax_kind::OPENING_CURLY_BRACE, b'{'),
        }
    }

    // The same of the token that closes it.
    fn closing(self) -> (u16, u8)
        ensures { result ≡ ((closing self).0, sign_byte (closing self).1) }
    {
        match self {
            Brackets::Round => (syntax_kind::CLOSING_ROUND_BRACKET, b')'),
            Brackets::Square => (syntax_kind::CLOSING_SQUARE_BRACKET, b']'),
            Brackets::Curly => (syntax_kind::CLOSING_CURLY_BRACE, b'}'),
        }
    }
}

// Both brackets are written as fixed signs, whatever their tokens' texts are.
#[inline(always)]
fn list_token(
    settings: &Settings,
    out: &mut [u8],
    ctx: FormatterContext,
    token: Token,
    brackets: Brackets,
) -> FormatterContext
    requires { Room 4 ctx }
    ensures { ArmActed 4 settings.now token.entry (list_token brackets) ctx out.old result out.new }
{
    if token.kind == syntax_kind::COMMA {
        return ctx.write_sign(settings.config, out, b',').write_space();
    }
    let (opening, opening_sign) = brackets.opening();
    if token.kind == opening {
        return ctx.write_sign(settings.config, out, opening_sign);
    }
    let (closing, closing_sign) = brackets.closing();
    if token.kind == closing {
        return ctx.write_sign(settings.config, out, closing_sign);
    }
    emit_uncommented(settings, out, ctx, token)
}

#[tactic(auto, unfolding(layout::specs::Routines::paren_list_token))]
pub fn paren_list_token(
    settings: &Settings,
    out: &mut [u8],
    ctx: FormatterContext,
    token: Token,
) -> FormatterContext
    requires { Room 4 ctx }
    ensures { ArmActed 4 settings.now token.entry paren_list_token ctx out.old result out.new }
{
    list_token(settings, out, ctx, token, Brackets::Round)
}

#[tactic(auto, unfolding(layout::specs::Routines::bracket_list_token))]
pub fn bracket_list_token(
    settings: &Settings,
    out: &mut [u8],
    ctx: FormatterContext,
    token: Token,
) -> FormatterContext
    requires { Room 4 ctx }
    ensures { ArmActed 4 settings.now token.entry bracket_list_token ctx out.old result out.new }
{
    list_token(settings, out, ctx, token, Brackets::Square)
}

pub fn brace_list_token(
    settings: &Settings,
    out: &mut [u8],
    ctx: FormatterContext,
    token: Token,
) -> FormatterContext
    requires { Room 4 ctx }
    ensures { ArmActed 4 settings.now token.entry brace_list_token ctx out.old result out.new }
{
    if token.kind == syntax_kind::COLON {
        return ctx.write_sign(settings.config, out, b':').write_space();
    }
    list_token(settings, out, ctx, token, Brackets::Curly)
}

// ---- format_data_type

pub fn data_type_token(
    settings: &Settings,
    out: &mut [u8],
    ctx: FormatterContext,
    token: Token,
) -> FormatterContext
    requires { Room 4 ctx }
    ensures { ArmActed 4 settings.now token.entry data_type_token ctx out.old result out.new }
{
    if is_trivia(token.kind) {
        return emit_trivia(settings, out, ctx, token);
    }
    if token.kind == syntax_kind::COMMA {
        return ctx.write_sign(settings.config, out, b',').write_space();
    }
    if token.kind == syntax_kind::OPENING_ROUND_BRACKET {
        return ctx.write_sign(settings.config, out, b'(');
    }
    if token.kind == syntax_kind::CLOSING_ROUND_BRACKET {
        return ctx.write_sign(settings.config, out, b')');
    }
    write_text(settings, out, ctx, token)
}

// ---- format_inline_tight_parens, format_inline

fn space_between(kind: u16, prev: Option<u16>) -> bool
    ensures { result ≡ (not (no_space_before kind) && space_after prev) }
{
    !no_space_before(kind) && space_after(prev)
}

// No space between a name and a bracket.
fn space_between_tight(kind: u16, prev: Option<u16>) -> bool
    ensures { result ≡ ((not (no_space_before kind) && not (eqb kind OpeningRoundBracket && name_before prev)) && space_after prev) }
{
    let suppress_space = kind == syntax_kind::OPENING_ROUND_BRACKET && name_before(prev);
    !suppress_space && space_between(kind, prev)
}

// This and inline_token are no plainer as one: they differ in the test that they call.
pub fn inline_tight_parens_token(
    settings: &Settings,
    out: &mut [u8],
    ctx: FormatterContext,
    local: Local,
    token: Token,
) -> Arm
    requires { Room 4 ctx }
    ensures { ArmDone settings.now token.entry inline_tight_parens_token local ctx out.old result out.new }
{
    let wanted = space_between_tight(token.kind, local.prev);
    let left = Local::after(token.kind);
    spaced_token(settings, out, ctx, local, token, wanted, left)
}

pub fn inline_token(
    settings: &Settings,
    out: &mut [u8],
    ctx: FormatterContext,
    local: Local,
    token: Token,
) -> Arm
    requires { Room 4 ctx }
    ensures { ArmDone settings.now token.entry inline_token local ctx out.old result out.new }
{
    let wanted = space_between(token.kind, local.prev);
    let left = Local::after(token.kind);
    spaced_token(settings, out, ctx, local, token, wanted, left)
}

// ---- format_passthrough

pub fn passthrough_token(
    settings: &Settings,
    out: &mut [u8],
    ctx: FormatterContext,
    token: Token,
) -> FormatterContext
    requires { Room 4 ctx }
    ensures { ArmActed 4 settings.now token.entry passthrough_token ctx out.old result out.new }
{
    if token.kind == syntax_kind::WHITESPACE {
        return ctx.note_skipped_whitespace(token.text).write_space();
    }
    emit_other(settings, out, ctx, token)
}

// ---- format_alter_command_list: no comment arm

pub fn alter_command_list_token(
    settings: &Settings,
    out: &mut [u8],
    ctx: FormatterContext,
    token: Token,
) -> FormatterContext
    requires { Room 4 ctx }
    ensures { ArmActed 4 settings.now token.entry alter_command_list_token ctx out.old result out.new }
{
    if token.kind == syntax_kind::COMMA {
        return ctx
            .write_sign(settings.config, out, b',')
            .write_newline(out);
    }
    emit_uncommented(settings, out, ctx, token)
}
