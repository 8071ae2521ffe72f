// format_node.rs: the loop over the children of a node, and the dispatch. They form one cycle of calls over the tape: with each call of
// `node` a level less is left, and each pass of the loop moves on along the tape. `map` is where the places of tokens are noted; a plain layout
// lends one of no numbers. A walk goes by places on the tape, by which it also finds what is noted of a node: a pass moves on by what it has read, or
// to where `node` ends.
ghost use Rattle.std.specs.Prelude.{◌≡◌};
ghost use Rattle.tape.specs.NodeFacts.{facts_at};
ghost use Rattle.tape.specs.Tape.{head_at};
ghost use Rattle.layout.specs.FormatNode.{arms_of};
ghost use Rattle.formatter.specs.KnownArms.{noted_copied};
ghost use Rattle.formatter.specs.RoutinePromises.{HasList, NodeDone, NodeReady, RoutineDone};

use crate::Walk;
use crate::arms::{after, before, begin, end, multi, several, signs, token};
use context::FormatterContext;
use dispatch::routine_of;
use layout::Routine;
use tape::commands::{CLOSE, TOKEN, head_at};
use tape::facts::Facts;
use tape::scan::skip;
use tape::syntax_kind;
use token_map::{note_none, note_token};
use tokens::{Settings, Token, format_error_verbatim};

#[cycle(routines)]
#[inline(always)]
fn children(
    source: &[u8],
    settings: &Settings,
    tape: &[u8],
    facts: &[u8],
    out: &mut [u8],
    map: &mut [u64],
    left: usize,
    at: usize,
    routine: Routine,
    c: FormatterContext,
) -> Walk
    requires { NodeReady source.now tape.now facts.now settings.now.config left at c × HasList routine }
    ensures { RoutineDone source.now tape.now settings.now.config at (arms_of routine) c out.old map.old result out.new map.new }
{
    let multi = multi(Facts::at(facts, at), routine);
    let mut i = at + 11;
    let mut ctx = c;
    let mut local = begin(routine);
    while tape[i] != CLOSE {
        let h = head_at(tape, i);
        if tape[i] == TOKEN {
            let t = Token::at(source, h);
            let a = token(settings, out, routine, multi, ctx, local, t);
            ctx = a.context;
            local = a.local;
            note_token(map, t.kind, t.text, ctx.position, signs(routine));
            i += 11;
        } else {
            let several = several(Facts::at(facts, i), routine, h.kind);
            let a = before(out, routine, multi, several, ctx, local, h.kind);
            let w = node(
                source,
                settings,
                tape,
                facts,
                out,
                map,
                left - 1,
                i,
                h.kind,
                a.context,
            );
            ctx = after(routine, several, w.context, local, h.kind);
            local = a.local;
            i = w.at;
        }
    }
    Walk {
        at: i + 1,
        context: end(routine, multi, ctx, local),
    }
}

// Whether a node of the kind is copied as typed: an Error node, or one that has an Error node as child and is no QueryList.
#[inline(always)]
fn is_copied(facts: Facts, kind: u16) -> bool
    ensures { result ≡ noted_copied kind (facts_at facts.entry.facts.now facts.entry.at) }
{
    facts.has_error() && kind != syntax_kind::QUERY_LIST
}

// format_node. The caller has read the node's kind.
#[cycle(routines)]
pub(crate) fn node(
    source: &[u8],
    settings: &Settings,
    tape: &[u8],
    facts: &[u8],
    out: &mut [u8],
    map: &mut [u64],
    left: usize,
    at: usize,
    kind: u16,
    c: FormatterContext,
) -> Walk
    requires { NodeReady source.now tape.now facts.now settings.now.config left at c × (kind ≡ (head_at tape.now at).kind) }
    ensures { NodeDone source.now tape.now settings.now.config at c out.old map.old result out.new map.new }
{
    if is_copied(Facts::at(facts, at), kind) {
        let h = head_at(tape, at);
        let end = skip(tape, at);
        note_none(map, end.tokens);
        let ctx = format_error_verbatim(source, out, c, h);
        return Walk {
            at: end.at,
            context: ctx,
        };
    }
    // A call for each routine, with the routine as a constant, so that the compiler makes a loop of its own for each: one that asks in each pass which
    // routine it is takes 15 % more instructions.
    macro_rules! children_of {
        ($routine:expr) => {
            children(
                source, settings, tape, facts, out, map, left, at, $routine, c,
            )
        };
    }
    match routine_of(kind) {
        Routine::File => children_of!(Routine::File),
        Routine::QueryList => children_of!(Routine::QueryList),
        Routine::SelectStatement => children_of!(Routine::SelectStatement),
        Routine::SelectClause => children_of!(Routine::SelectClause),
        Routine::SimpleClause => children_of!(Routine::SimpleClause),
        Routine::ListClause(list) => children_of!(Routine::ListClause(list)),
        Routine::SettingsClause => children_of!(Routine::SettingsClause),
        Routine::WithClause => children_of!(Routine::WithClause),
        Routine::JoinClause => children_of!(Routine::JoinClause),
        Routine::Inline => children_of!(Routine::Inline),
        Routine::CommaList => children_of!(Routine::CommaList),
        Routine::InlineCommaList => children_of!(Routine::InlineCommaList),
        Routine::BinaryExpression => children_of!(Routine::BinaryExpression),
        Routine::UnaryExpression => children_of!(Routine::UnaryExpression),
        Routine::FunctionCall => children_of!(Routine::FunctionCall),
        Routine::CaseExpression => children_of!(Routine::CaseExpression),
        Routine::WhenClause => children_of!(Routine::WhenClause),
        Routine::Subquery => children_of!(Routine::Subquery),
        Routine::ParenList => children_of!(Routine::ParenList),
        Routine::BracketList => children_of!(Routine::BracketList),
        Routine::InlineNoSpaces => children_of!(Routine::InlineNoSpaces),
        Routine::BraceList => children_of!(Routine::BraceList),
        Routine::DataType => children_of!(Routine::DataType),
        Routine::InlineTightParens => children_of!(Routine::InlineTightParens),
        Routine::AlterCommandList => children_of!(Routine::AlterCommandList),
        Routine::UnionClause => children_of!(Routine::UnionClause),
        Routine::Passthrough => children_of!(Routine::Passthrough),
    }
}
