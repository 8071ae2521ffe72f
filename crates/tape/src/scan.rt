// The way past a node of an accepted tape. It asks that a node lies at its place, so that no bound is tested.
ghost use Rattle.tape.specs.SpelledAt.{NodeAt, Skipped};

use crate::Passed;
use crate::commands::{CLOSE, TOKEN};

// The place after the close of the node that opens at `at`, and how many tokens are below the node. By places, and not over commands as they are read
// elsewhere: what lies here is known, so that no operand and no refusal is needed. The loops count by hand, since their steps have different lengths. Tokens
// have a loop of their own: with one loop over a `match` a query that is copied whole takes 20 % more by the clock.
pub fn skip(tape: &[u8], at: usize) -> Passed
    requires { NodeAt tape.now at }
    ensures { Skipped tape.now at result }
{
    let mut i = at + 11;
    let mut depth: usize = 1;
    let mut tokens: usize = 0;
    while 0 < depth {
        while tape[i] == TOKEN {
            i += 11;
            tokens += 1;
        }
        if tape[i] == CLOSE {
            depth -= 1;
            i += 1;
        } else {
            depth += 1;
            i += 11;
        }
    }
    Passed { at: i, tokens }
}
