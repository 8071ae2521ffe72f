// Two calls on one tape: one for each of two texts, which is the masking rule, demand 3, from entry to exit; or both for one text, in two spaces.
// What is lent stands apart, as in one call.
#![tactic(auto)]

ghost use Rattle.layout.specs.Outcome.{answer_of};
ghost use Rattle.two_calls.specs.Both.{LaysOutBoth, LaysOutTwice, MapsBoth};

use formatter::{layout, layout_map};
use layout::Refused;

pub fn layout_both(
    a: &[u8],
    b: &[u8],
    tape: &[u8],
    width: u64,
    case: u64,
    out_a: &mut [u8],
    out_b: &mut [u8],
) -> (Result<usize, Refused>, Result<usize, Refused>)
    ensures { LaysOutBoth a.now b.now tape.now width case out_a.old out_b.old (answer_of result.0, answer_of result.1) out_a.new out_b.new }
{
    let first = layout(a, tape, width, case, out_a);
    let second = layout(b, tape, width, case, out_b);
    (first, second)
}

// Request E3: both with a token map. Not one with layout_both, since the promises differ (`LaysOutBoth`, `MapsBoth`).
pub fn layout_map_both(
    a: &[u8],
    b: &[u8],
    tape: &[u8],
    width: u64,
    case: u64,
    out_a: &mut [u8],
    out_b: &mut [u8],
    map_a: &mut [u64],
    map_b: &mut [u64],
) -> (Result<usize, Refused>, Result<usize, Refused>)
    ensures { MapsBoth a.now b.now tape.now width case out_a.old out_b.old map_a.old map_b.old (answer_of result.0, answer_of result.1) out_a.new out_b.new map_a.new map_b.new }
{
    let first = layout_map(a, tape, width, case, out_a, map_a);
    let second = layout_map(b, tape, width, case, out_b, map_b);
    (first, second)
}

// Request E5: one input in two spaces.
pub fn layout_twice(
    text: &[u8],
    tape: &[u8],
    width: u64,
    case: u64,
    out_a: &mut [u8],
    out_b: &mut [u8],
) -> (Result<usize, Refused>, Result<usize, Refused>)
    ensures { LaysOutTwice text.now tape.now width case out_a.old out_b.old (answer_of result.0, answer_of result.1) out_a.new out_b.new }
{
    layout_both(text, text, tape, width, case, out_a, out_b)
}
