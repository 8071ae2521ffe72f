// What the check notes of each node for the walk, so that the walk never looks ahead: a byte for each node, at the place of its open divided by 11.
// Bits of one byte and no struct: the array for all nodes lies on the stack, and there is no heap.
ghost use Rattle.std.specs.Prelude.{◌≡◌, ◌*◌, ◌<◌, length, IfSome};
ghost use Rattle.tape.specs.NodeFacts.{child_bits, facts_at, notes_error, notes_list, notes_several, noted_open, opened, with_child};

use crate::syntax_kind;

// The byte of a node of the kind before its children.
pub fn opened(kind: u16) -> u8
    ensures { result ≡ opened kind }
{
    if kind == syntax_kind::ERROR { 1 } else { 0 }
}

// What a child of the kind adds.
fn child_bits(kind: u16) -> u8
    ensures { result ≡ child_bits kind }
{
    match kind {
        syntax_kind::ERROR => 3,
        syntax_kind::GROUP_BY_LIST => 10,
        syntax_kind::ORDER_BY_LIST => 18,
        _ => 2,
    }
}

// The byte after one more child of the kind.
pub fn with_child(f: u8, kind: u16) -> u8
    ensures { result ≡ with_child f kind }
{
    f | child_bits(kind) | ((f & 2) * 2)
}

// What is noted where a node of the kind opens, whose byte is at `here`: its own byte, and one more child in that of the node around it, if there is one.
pub(crate) fn note_open(facts: &mut [u8], around: Option<u16>, here: usize, kind: u16)
    requires { (here < length facts.old) × IfSome around (λ q. q < length facts.old) }
    ensures { facts.new ≡ noted_open around here kind facts.old }
{
    if let Some(parent) = around {
        let parent = usize::from(parent);
        facts[parent] = with_child(facts[parent], kind);
    }
    facts[here] = opened(kind);
}

// What was noted of the node that opens at `at`. Its byte is read where it is asked for: most routines ask nothing of it.
#[derive(Clone, Copy)]
pub struct Facts<'a> {
    pub facts: &'a [u8],
    pub at: usize,
    ghost inside: { at < 11 * length facts.now },
}

impl<'a> Facts<'a> {
    pub fn at(facts: &'a [u8], at: usize) -> Self
        requires { at < 11 * length facts.now }
        ensures { facts_at result.facts.now result.at ≡ facts_at facts.now at }
    {
        Facts { facts, at }
    }

    // Whether it is an Error node or has one as child.
    pub fn has_error(self) -> bool
        ensures { result ≡ notes_error (facts_at self.entry.facts.now self.entry.at) }
    {
        self.facts[self.at / 11] % 2 == 1
    }

    // Whether it has more than one node as child.
    pub fn has_several(self) -> bool
        ensures { result ≡ notes_several (facts_at self.entry.facts.now self.entry.at) }
    {
        self.facts[self.at / 11] / 4 % 2 == 1
    }

    // Whether it has the list as child: a GroupByList, else an OrderByList.
    pub fn has_list(self, list: u16) -> bool
        ensures { result ≡ notes_list list (facts_at self.entry.facts.now self.entry.at) }
    {
        let f = self.facts[self.at / 11];
        if list == syntax_kind::GROUP_BY_LIST {
            return f / 8 % 2 == 1;
        }
        f / 16 % 2 == 1
    }
}
