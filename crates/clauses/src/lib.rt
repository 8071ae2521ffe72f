// What the routines of format_node.rs for files, statements and clauses do with their children: NAME_token at a token, NAME_before and
// NAME_after around a child node, NAME_end at their end; NAME_local is what the local variables become after a child node. The arms that
// most routines share come last, in `emit_other`. The loops that call these are in the crate `formatter`.
// What `Room n` is, and why the context goes by value: context/src/lib.rt.
#![tactic(auto)]

ghost use Rattle.std.specs.Prelude.{◌≡◌, cond, not, ◌&&◌, [], ◌∷◌, eqb};
ghost use Rattle.context.specs.Store.{Room};
ghost use Rattle.basics.specs.Match.{among};
ghost use Rattle.tape.specs.Kinds.{SelectStatement, UnionClause};
ghost use Rattle.layout.specs.declared.Local.{Local};
ghost use Rattle.layout.specs.Arms.{dedent, indent, newline};
ghost use Rattle.layout.specs.Routines.{file_token, format_file, format_query_list, format_select_clause, format_select_statement, format_settings_clause, format_union_clause, join_clause_token, list_clause_node, list_clause_token, query_list_token, select_clause_token, select_statement_token, simple_clause_token, union_token};
ghost use Rattle.tape.specs.NodeFacts.{facts_at, notes_list, notes_several};
ghost use Rattle.tokens.specs.TokenPromises.{ArmActed, ArmDone, Spaced, SpacedUnwritten};

use context::FormatterContext;
use layout::Local;
use tape::facts::Facts;
use tape::syntax_kind;
use tokens::{
    Arm, Settings, Token, blank_line, blank_line_before_comment, emit_comment, emit_other,
    emit_uncommented, newline_if, no_space_after, no_space_before, space_if, spaced_token,
    write_word,
};

// ---- format_file

pub fn file_token(
    settings: &Settings,
    out: &mut [u8],
    ctx: FormatterContext,
    token: Token,
) -> FormatterContext
    requires { Room 4 ctx }
    ensures { ArmActed 4 settings.now token.entry file_token ctx out.old result out.new }
{
    if token.kind == syntax_kind::COMMENT {
        let a = blank_line_before_comment(out, ctx);
        return emit_comment(settings, out, a, token);
    }
    if token.kind == syntax_kind::SEMICOLON {
        return ctx.write_sign(settings.config, out, b';');
    }
    emit_other(settings, out, ctx, token)
}

pub fn file_before(out: &mut [u8], ctx: FormatterContext, local: Local) -> FormatterContext
    requires { Room 2 ctx }
    ensures { Spaced 2 (format_file.at_node local 0 0).1 ctx out.old result out.new }
{
    if local.flag {
        ctx.write_newline(out).write_newline(out)
    } else {
        blank_line(out, ctx)
    }
}

// ---- format_query_list

pub fn query_list_token(
    settings: &Settings,
    out: &mut [u8],
    ctx: FormatterContext,
    token: Token,
) -> FormatterContext
    requires { Room 4 ctx }
    ensures { ArmActed 4 settings.now token.entry query_list_token ctx out.old result out.new }
{
    if token.kind == syntax_kind::SEMICOLON {
        return ctx.write_sign(settings.config, out, b';');
    }
    emit_other(settings, out, ctx, token)
}

pub fn query_list_before(out: &mut [u8], ctx: FormatterContext, local: Local) -> FormatterContext
    requires { Room 2 ctx }
    ensures { Spaced 2 (format_query_list.at_node local 0 0).1 ctx out.old result out.new }
{
    if local.flag {
        ctx
    } else {
        ctx.write_newline(out).write_newline(out)
    }
}

// ---- format_select_statement

pub fn select_statement_token(
    settings: &Settings,
    out: &mut [u8],
    ctx: FormatterContext,
    token: Token,
) -> FormatterContext
    requires { Room 4 ctx }
    ensures { ArmActed 4 settings.now token.entry select_statement_token ctx out.old result out.new }
{
    if token.kind == syntax_kind::SEMICOLON {
        return ctx;
    }
    emit_other(settings, out, ctx, token)
}

pub fn select_statement_before(
    out: &mut [u8],
    ctx: FormatterContext,
    local: Local,
) -> FormatterContext
    requires { Room 1 ctx }
    ensures { Spaced 1 (format_select_statement.at_node local 0 0).1 ctx out.old result out.new }
{
    newline_if(out, ctx, !local.flag)
}

// ---- format_select_clause; format_settings_clause and format_with_clause have the same token arms

#[inline(always)]
pub fn select_clause_token(
    settings: &Settings,
    out: &mut [u8],
    ctx: FormatterContext,
    token: Token,
) -> FormatterContext
    requires { Room 4 ctx }
    ensures { ArmActed 4 settings.now token.entry select_clause_token ctx out.old result out.new }
{
    if token.kind == syntax_kind::BARE_WORD {
        return write_word(settings, out, ctx, token).write_space();
    }
    emit_other(settings, out, ctx, token)
}

// A newline and a level more.
fn begin_block(out: &mut [u8], ctx: FormatterContext) -> FormatterContext
    requires { Room 2 ctx }
    ensures { Spaced 2 (newline ∷ indent ∷ []) ctx out.old result out.new }
{
    ctx.write_newline(out).indent()
}

// begin_block where it is wanted.
fn indent_if(out: &mut [u8], ctx: FormatterContext, wanted: bool) -> FormatterContext
    requires { Room 2 ctx }
    ensures { Spaced 2 (cond wanted (newline ∷ indent ∷ []) []) ctx out.old result out.new }
{
    if wanted { begin_block(out, ctx) } else { ctx }
}

// A level less where it is wanted.
fn dedent_if(ctx: FormatterContext, wanted: bool) -> FormatterContext
    ensures { SpacedUnwritten 0 (cond wanted (dedent ∷ []) []) ctx result }
{
    if wanted { ctx.dedent() } else { ctx }
}

pub fn select_clause_before(out: &mut [u8], ctx: FormatterContext, kind: u16) -> FormatterContext
    requires { Room 2 ctx }
    ensures { (local : Local) → Spaced 2 (format_select_clause.at_node local kind 0).1 ctx out.old result out.new }
{
    indent_if(out, ctx, kind == syntax_kind::COLUMN_LIST)
}

pub fn select_clause_after(ctx: FormatterContext, kind: u16) -> FormatterContext
    ensures { (local : Local) → SpacedUnwritten 0 (format_select_clause.at_node local kind 0).2 ctx result }
{
    dedent_if(ctx, kind == syntax_kind::COLUMN_LIST)
}

// ---- format_simple_clause

#[inline(always)]
pub fn simple_clause_token(
    settings: &Settings,
    out: &mut [u8],
    ctx: FormatterContext,
    local: Local,
    token: Token,
) -> Arm
    requires { Room 4 ctx }
    ensures { ArmDone settings.now token.entry simple_clause_token local ctx out.old result out.new }
{
    let wanted = local.flag && !no_space_before(token.kind);
    let left = Local::flagged(!no_space_after(token.kind));
    spaced_token(settings, out, ctx, local, token, wanted, left)
}

// ---- format_group_by_clause, format_order_by_clause

// Whether the clause holds no list node and more than one node, by what the check has noted of it.
pub fn multi_item(facts: Facts, list: u16) -> bool
    ensures { result ≡ (notes_several (facts_at facts.entry.facts.now facts.entry.at) && not (notes_list list (facts_at facts.entry.facts.now facts.entry.at))) }
{
    facts.has_several() && !facts.has_list(list)
}

// Whether a child is the clause's list and holds more than one item, by what the check has noted of the child.
pub fn several_items(facts: Facts, list: u16, kind: u16) -> bool
    ensures { result ≡ (eqb kind list && notes_several (facts_at facts.entry.facts.now facts.entry.at)) }
{
    kind == list && facts.has_several()
}

pub fn list_clause_token(
    settings: &Settings,
    out: &mut [u8],
    ctx: FormatterContext,
    multi: bool,
    token: Token,
) -> FormatterContext
    requires { Room 4 ctx }
    ensures { ArmActed 4 settings.now token.entry (list_clause_token multi) ctx out.old result out.new }
{
    if token.kind == syntax_kind::BARE_WORD {
        return write_word(settings, out, ctx, token).write_space();
    }
    if token.kind == syntax_kind::COMMA {
        let a = ctx.write_sign(settings.config, out, b',');
        return if multi {
            a.write_newline(out)
        } else {
            a.write_space()
        };
    }
    emit_other(settings, out, ctx, token)
}

pub fn list_clause_before(
    out: &mut [u8],
    ctx: FormatterContext,
    list: u16,
    multi: bool,
    local: Local,
    kind: u16,
    several: bool,
) -> FormatterContext
    requires { Room 2 ctx }
    ensures { Spaced 2 (cond (cond (eqb kind list) several (not local.flag && multi)) (newline ∷ indent ∷ []) []) ctx out.old result out.new }
{
    let wanted = if kind == list {
        several
    } else {
        !local.flag && multi
    };
    indent_if(out, ctx, wanted)
}

pub fn list_clause_after(
    ctx: FormatterContext,
    list: u16,
    kind: u16,
    several: bool,
) -> FormatterContext
    ensures { SpacedUnwritten 0 (cond (eqb kind list && several) (dedent ∷ []) []) ctx result }
{
    dedent_if(ctx, kind == list && several)
}

pub fn list_clause_local(list: u16, multi: bool, local: Local, kind: u16) -> Local
    ensures { result ≡ (list_clause_node list multi local kind 0).0 }
{
    if kind != list && !local.flag && multi {
        Local::flagged(true)
    } else {
        local
    }
}

pub fn list_clause_end(ctx: FormatterContext, multi: bool, local: Local) -> FormatterContext
    ensures { SpacedUnwritten 0 (cond (local.flag && multi) (dedent ∷ []) []) ctx result }
{
    dedent_if(ctx, local.flag && multi)
}

// ---- format_limit_by_clause, format_join_clause: but for words they are format_simple_clause

pub fn join_clause_token(
    settings: &Settings,
    out: &mut [u8],
    ctx: FormatterContext,
    local: Local,
    token: Token,
) -> Arm
    requires { Room 4 ctx }
    ensures { ArmDone settings.now token.entry join_clause_token local ctx out.old result out.new }
{
    if token.kind == syntax_kind::BARE_WORD {
        let a = space_if(ctx, local.flag);
        return Arm {
            context: write_word(settings, out, a, token),
            local: Local::flagged(true),
        };
    }
    simple_clause_token(settings, out, ctx, local, token)
}

// ---- format_settings_clause

pub fn settings_clause_before(out: &mut [u8], ctx: FormatterContext, kind: u16) -> FormatterContext
    requires { Room 2 ctx }
    ensures { (local : Local) → Spaced 2 (format_settings_clause.at_node local kind 0).1 ctx out.old result out.new }
{
    if kind == syntax_kind::SETTING_LIST {
        begin_block(out, ctx)
    } else {
        ctx.write_space()
    }
}

pub fn settings_clause_after(ctx: FormatterContext, kind: u16) -> FormatterContext
    ensures { (local : Local) → SpacedUnwritten 0 (format_settings_clause.at_node local kind 0).2 ctx result }
{
    dedent_if(ctx, kind == syntax_kind::SETTING_LIST)
}

// ---- format_with_clause

pub fn with_clause_before(out: &mut [u8], ctx: FormatterContext) -> FormatterContext
    requires { Room 2 ctx }
    ensures { Spaced 2 (newline ∷ indent ∷ []) ctx out.old result out.new }
{
    begin_block(out, ctx)
}

pub fn with_clause_after(ctx: FormatterContext) -> FormatterContext
    ensures { SpacedUnwritten 0 (dedent ∷ []) ctx result }
{
    ctx.dedent()
}

// ---- format_union_clause: no comment arm

pub fn union_clause_token(
    settings: &Settings,
    out: &mut [u8],
    ctx: FormatterContext,
    local: Local,
    token: Token,
) -> FormatterContext
    requires { Room 4 ctx }
    ensures { ArmActed 4 settings.now token.entry (λ t. (union_token local t).1) ctx out.old result out.new }
{
    if token.kind == syntax_kind::BARE_WORD {
        return if local.flag {
            write_word(settings, out, ctx.write_space(), token)
        } else {
            write_word(settings, out, ctx, token).write_space()
        };
    }
    emit_uncommented(settings, out, ctx, token)
}

fn is_select(kind: u16) -> bool
    ensures { result ≡ among kind (SelectStatement ∷ UnionClause ∷ []) }
{
    matches!(
        kind,
        syntax_kind::SELECT_STATEMENT | syntax_kind::UNION_CLAUSE
    )
}

pub fn union_clause_before(
    out: &mut [u8],
    ctx: FormatterContext,
    local: Local,
    kind: u16,
) -> FormatterContext
    requires { Room 1 ctx }
    ensures { Spaced 1 (format_union_clause.at_node local kind 0).1 ctx out.old result out.new }
{
    newline_if(out, ctx, is_select(kind) && local.flag)
}

pub fn union_clause_local(local: Local, kind: u16) -> Local
    ensures { result ≡ (format_union_clause.at_node local kind 0).0 }
{
    if is_select(kind) {
        Local::flagged(true)
    } else {
        local
    }
}
