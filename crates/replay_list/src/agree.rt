// Whether the call answers what a record says, in no space and in the record's, and leaves the output space as it says.
ghost use Rattle.std.specs.Prelude.{◌≡◌, ◌-◌, ◌++◌, length, replicate};
ghost use Rattle.keywords.specs.Words.{same};
ghost use Rattle.layout.specs.Layout.{original};
ghost use Rattle.layout.specs.Outcome.{outcome};
ghost use Rattle.replay_list.specs.Agreement.{calls_agree, no_space_number};

use crate::RecordHead;
use formatter::layout;
use layout::Answer;

// In no space a layout is refused with 13, unless it needs no byte. Two numbers and no Result: a record may hold any two, and a wrong one is to differ.
fn no_space_number(head: RecordHead) -> u64
    ensures { result ≡ no_space_number head.number head.value }
{
    if head.number == 0 && 0 < head.value {
        13
    } else {
        head.number
    }
}

// Whether the space holds what is expected: behind the layout nothing is written.
fn same_space(out: &[u8], expected: &[u8]) -> bool
    ensures { result ≡ same out.now (expected.now ++ replicate (length out.now - length expected.now) 255) }
{
    let Some(rest) = out.strip_prefix(expected) else {
        return false;
    };
    rest.iter().all(|b| *b == 255)
}

// Makes the call in no space and in one as long as `out`, and compares both answers and every byte of the space.
pub(crate) fn calls_agree(
    head: RecordHead,
    text: &[u8],
    tape: &[u8],
    expected: &[u8],
    out: &mut [u8],
) -> bool
    ensures { result ≡ calls_agree (outcome original head.width head.case text.now tape.now) head.number head.value expected.now (length out.old) }
{
    let in_no_space = Answer::from(layout(text, tape, head.width, head.case, &mut []));
    out.fill(255);
    let answer = Answer::from(layout(text, tape, head.width, head.case, out));
    let due_in_no_space = Answer {
        number: no_space_number(head),
        value: head.value,
    };
    let due = Answer {
        number: head.number,
        value: head.value,
    };
    let same_in_no_space = in_no_space == due_in_no_space;
    let same_in_space = answer == due;
    same_in_no_space & same_in_space & same_space(out, expected)
}
