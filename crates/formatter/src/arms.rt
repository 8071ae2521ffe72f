// What each routine does with its children, by the routine: its local variables at first; the arms of a token; what goes before and after a
// child node; what becomes of the local variables then; its end. `multi` is what a list clause looks ahead for: whether it holds no list and
// several nodes. `several` is whether the child node is its list and holds several items. No other routine asks for either.
// Each is a `match`, and no trait or closure stands for the routine: the loop and `node` call each other (tried: "in a cycle of calls whose functions differ
// in their type parameters or bounds").
ghost use Rattle.std.specs.Prelude.{◌≡◌, Bool};
ghost use Rattle.context.specs.Store.{Room};
ghost use Rattle.tape.specs.NodeFacts.{facts_at};
ghost use Rattle.token_map.specs.Signed.{Signed};
ghost use Rattle.tokens.specs.TokenPromises.{ArmDone, Spaced, SpacedUnwritten};
ghost use Rattle.formatter.specs.KnownArms.{counted, known_arms, noted_multi, noted_several};

use clauses::{
    file_before, file_token, join_clause_token, list_clause_after, list_clause_before,
    list_clause_end, list_clause_local, list_clause_token, multi_item, query_list_before,
    query_list_token, select_clause_after, select_clause_before, select_clause_token,
    select_statement_before, select_statement_token, settings_clause_after, settings_clause_before,
    several_items, simple_clause_token, union_clause_before, union_clause_local,
    union_clause_token, with_clause_after, with_clause_before,
};
use context::FormatterContext;
use expressions::{
    alter_command_list_token, binary_expression_token, brace_list_token, bracket_list_token,
    case_expression_before, case_expression_token, comma_list_token, data_type_token,
    function_call_token, inline_comma_list_token, inline_tight_parens_token, inline_token,
    paren_list_token, passthrough_token, subquery_token, unary_expression_token, when_clause_token,
};
use layout::{Local, Routine};
use tape::facts::Facts;
use tape::syntax_kind;
use token_map::Signs;
use tokens::{Arm, Settings, Token, emit_other, space_after, space_if};

#[inline(always)]
pub(crate) fn begin(routine: Routine) -> Local
    ensures { (multi : Bool) → result ≡ (known_arms routine multi).begin }
{
    match routine {
        Routine::QueryList | Routine::SelectStatement => Local::flagged(true),
        _ => Local::flagged(false),
    }
}

// `multi_item` of a list clause; of no other routine.
#[inline(always)]
pub(crate) fn multi(facts: Facts, routine: Routine) -> bool
    ensures { result ≡ noted_multi routine (facts_at facts.entry.facts.now facts.entry.at) }
{
    match routine {
        Routine::ListClause(list) => multi_item(facts, list),
        _ => false,
    }
}

// `several_items` of a list clause; of no other routine.
#[inline(always)]
pub(crate) fn several(facts: Facts, routine: Routine, kind: u16) -> bool
    ensures { result ≡ noted_several routine kind (facts_at facts.entry.facts.now facts.entry.at) }
{
    match routine {
        Routine::ListClause(list) => several_items(facts, list, kind),
        _ => false,
    }
}

#[inline(always)]
pub(crate) fn token(
    settings: &Settings,
    out: &mut [u8],
    routine: Routine,
    multi: bool,
    c: FormatterContext,
    local: Local,
    t: Token,
) -> Arm
    requires { Room 4 c }
    ensures { ArmDone settings.now t.entry (known_arms routine multi).at_token local c out.old result out.new }
{
    let context = match routine {
        Routine::File => file_token(settings, out, c, t),
        Routine::QueryList => query_list_token(settings, out, c, t),
        Routine::SelectStatement => select_statement_token(settings, out, c, t),
        Routine::SelectClause | Routine::SettingsClause | Routine::WithClause => {
            select_clause_token(settings, out, c, t)
        }
        Routine::SimpleClause => return simple_clause_token(settings, out, c, local, t),
        Routine::ListClause(list) => list_clause_token(settings, out, c, multi, t),
        Routine::JoinClause => return join_clause_token(settings, out, c, local, t),
        Routine::Inline => return inline_token(settings, out, c, local, t),
        Routine::CommaList => return comma_list_token(settings, out, c, local, t),
        Routine::InlineCommaList => inline_comma_list_token(settings, out, c, t),
        Routine::BinaryExpression => binary_expression_token(settings, out, c, t),
        Routine::UnaryExpression => unary_expression_token(settings, out, c, t),
        Routine::FunctionCall => function_call_token(settings, out, c, t),
        Routine::CaseExpression => case_expression_token(settings, out, c, t),
        Routine::WhenClause => when_clause_token(settings, out, c, t),
        Routine::Subquery => subquery_token(settings, out, c, t),
        Routine::ParenList => paren_list_token(settings, out, c, t),
        Routine::BracketList => bracket_list_token(settings, out, c, t),
        Routine::InlineNoSpaces => emit_other(settings, out, c, t),
        Routine::BraceList => brace_list_token(settings, out, c, t),
        Routine::DataType => data_type_token(settings, out, c, t),
        Routine::InlineTightParens => {
            return inline_tight_parens_token(settings, out, c, local, t);
        }
        Routine::AlterCommandList => alter_command_list_token(settings, out, c, t),
        Routine::UnionClause => union_clause_token(settings, out, c, local, t),
        Routine::Passthrough => passthrough_token(settings, out, c, t),
    };
    Arm { context, local }
}

// How the routine writes its tokens, for the token map.
#[inline(always)]
pub(crate) fn signs(routine: Routine) -> Signs
    ensures { (multi : Bool) → Signed result (known_arms routine multi) }
{
    match routine {
        Routine::File | Routine::QueryList => Signs::Semicolon,
        Routine::SelectStatement => Signs::NoSemicolon,
        Routine::ListClause(list) => Signs::Comma,
        Routine::CommaList | Routine::InlineCommaList | Routine::AlterCommandList => Signs::Comma,
        Routine::UnaryExpression => Signs::Minus,
        Routine::FunctionCall | Routine::Subquery => Signs::RoundBrackets,
        Routine::ParenList | Routine::DataType => Signs::CommaRoundBrackets,
        Routine::BracketList => Signs::CommaSquareBrackets,
        Routine::BraceList => Signs::CommaColonCurlyBraces,
        _ => Signs::Nothing,
    }
}

// Before a child node of the kind: the context, and what the local variables are after the node.
#[inline(always)]
pub(crate) fn before(
    out: &mut [u8],
    routine: Routine,
    multi: bool,
    several: bool,
    c: FormatterContext,
    local: Local,
    kind: u16,
) -> Arm
    requires { Room 2 c }
    ensures before { Spaced 2 ((known_arms routine multi).at_node local kind (counted several)).1 c out.old result.context out.new }
    ensures kept { result.local ≡ ((known_arms routine multi).at_node local kind (counted several)).0 }
{
    match routine {
        Routine::File => Arm {
            context: file_before(out, c, local),
            local: Local::flagged(true),
        },
        Routine::QueryList => Arm {
            context: query_list_before(out, c, local),
            local: Local::flagged(false),
        },
        Routine::SelectStatement => Arm {
            context: select_statement_before(out, c, local),
            local: Local::flagged(false),
        },
        Routine::SelectClause => Arm {
            context: select_clause_before(out, c, kind),
            local,
        },
        Routine::SimpleClause | Routine::JoinClause => Arm {
            context: space_if(c, local.flag),
            local: Local::flagged(true),
        },
        Routine::ListClause(list) => Arm {
            context: list_clause_before(out, c, list, multi, local, kind, several),
            local: list_clause_local(list, multi, local, kind),
        },
        Routine::SettingsClause => Arm {
            context: settings_clause_before(out, c, kind),
            local,
        },
        Routine::WithClause => Arm {
            context: with_clause_before(out, c),
            local,
        },
        Routine::CommaList => Arm {
            context: space_if(c, !local.flag),
            local: Local::flagged(false),
        },
        Routine::CaseExpression => Arm {
            context: case_expression_before(out, c, kind),
            local,
        },
        Routine::InlineTightParens | Routine::Inline => Arm {
            context: space_if(c, space_after(local.prev)),
            local: Local::after(syntax_kind::BARE_WORD),
        },
        Routine::UnionClause => Arm {
            context: union_clause_before(out, c, local, kind),
            local: union_clause_local(local, kind),
        },
        _ => Arm { context: c, local },
    }
}

#[inline(always)]
pub(crate) fn after(
    routine: Routine,
    several: bool,
    c: FormatterContext,
    local: Local,
    kind: u16,
) -> FormatterContext
    ensures { (multi : Bool) → SpacedUnwritten 0 ((known_arms routine multi).at_node local kind (counted several)).2 c result }
{
    match routine {
        Routine::SelectClause => select_clause_after(c, kind),
        Routine::ListClause(list) => list_clause_after(c, list, kind, several),
        Routine::SettingsClause => settings_clause_after(c, kind),
        Routine::WithClause => with_clause_after(c),
        _ => c,
    }
}

#[inline(always)]
pub(crate) fn end(
    routine: Routine,
    multi: bool,
    c: FormatterContext,
    local: Local,
) -> FormatterContext
    ensures { SpacedUnwritten 0 ((known_arms routine multi).at_end local) c result }
{
    match routine {
        Routine::ListClause(list) => list_clause_end(c, multi, local),
        _ => c,
    }
}
