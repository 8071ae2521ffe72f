// Refusals 1 to 12, 15 and 16.
ghost use Rattle.std.specs.Prelude.{◌≡◌, ◌*◌, ◌≤◌, length};
ghost use Rattle.utf8.specs.Pieces.{first_ill_formed};
ghost use Rattle.tape.specs.Faults.{number};
ghost use Rattle.tape.specs.Tape.{tests_of, AsciiStart, read_tape, verdict};
ghost use Rattle.tape.specs.NodeFacts.{NotedOf};
ghost use Rattle.tape.specs.Call.{read_input, read_call};

use crate::commands::{ReadCommand, WellFormedText, command_at};
use crate::facts::note_open;
use crate::{Fault, Refusal};
use arrayvec::ArrayVec;
use utf8::{first_ill_formed, is_ascii};

// What `Fault::number` answers, for callers outside these crates that name the function.
pub fn number(fault: Fault) -> u64
    ensures { result ≡ number fault }
{
    fault.number()
}

// 6 to 12, 15 and 16: the tape is read once from its start, and the first faulty command decides. `open` has the index of each open node's byte in
// `facts`, the innermost last. The place is stepped by hand: an iterator over commands would hand it out beside each, and be no plainer.
fn check(text: WellFormedText, tape: &[u8], facts: &mut [u8]) -> Result<(), Refusal>
    requires { (length tape.now ≤ 262144) × (length tape.now ≤ 11 * length facts.old) }
    ensures { (result ≡ verdict (read_tape (tests_of text.entry.text.now) tape.now))
        × NotedOf (read_tape (tests_of text.entry.text.now) tape.now) facts.new }
{
    let mut open: ArrayVec<u16, 64> = ArrayVec::new();
    let mut at: usize = 0;
    while at < tape.len() {
        match command_at(tape, at)? {
            ReadCommand::Close => {
                let Some(_) = open.pop() else {
                    return Err(Refusal {
                        fault: Fault::NotOneRoot,
                        at,
                    });
                };
                at += 1;
            }
            ReadCommand::Token(token) => {
                if open.is_empty() {
                    return Err(Refusal {
                        fault: Fault::NotOneRoot,
                        at,
                    });
                }
                text.check_token(token)?;
                at += 11;
            }
            ReadCommand::Open(node) => {
                // With no node open, only the first command may open one: the root.
                if open.is_empty() && 0 < at {
                    return Err(Refusal {
                        fault: Fault::NotOneRoot,
                        at,
                    });
                }
                text.check_open(open.len(), node)?;
                let here = at / 11;
                note_open(facts, open.as_slice().last().copied(), here, node.kind);
                open.push(here as u16);
                at += 11;
            }
        }
    }
    if !open.is_empty() || tape.is_empty() {
        return Err(Refusal {
            fault: Fault::NotOneRoot,
            at: tape.len(),
        });
    }
    Ok(())
}

// A number of bytes at the text's start that are ASCII: all of them, or 0, which is true of any text.
fn ascii_start(text: &[u8]) -> usize
    ensures { AsciiStart text.now result }
{
    if is_ascii(text) {
        return text.len();
    }
    0
}

// 4: the place of the first byte that is not part of a well-formed character, where so many bytes at the text's start are ASCII.
fn ill_formed_at(text: &[u8], ascii: usize) -> Option<usize>
    requires { AsciiStart text.now ascii }
    ensures { result ≡ first_ill_formed 0 text.now }
{
    if ascii == text.len() {
        return None;
    }
    first_ill_formed(text)
}

// 3 to 12, 15 and 16: text and tape.
fn check_input(text: &[u8], tape: &[u8], facts: &mut [u8]) -> Result<(), Refusal>
    requires { length tape.now ≤ 262144 → length tape.now ≤ 11 * length facts.old }
    ensures { (result ≡ verdict (read_input text.now tape.now)) × NotedOf (read_input text.now tape.now) facts.new }
{
    if 262144 < text.len() {
        return Err(Refusal {
            fault: Fault::TextTooLong,
            at: 0,
        });
    }
    let ascii = ascii_start(text);
    let ill_formed = ill_formed_at(text, ascii);
    if let Some(at) = ill_formed {
        return Err(Refusal {
            fault: Fault::IllFormed,
            at,
        });
    }
    if 262144 < tape.len() {
        return Err(Refusal {
            fault: Fault::TapeTooLong,
            at: 0,
        });
    }
    check(WellFormedText { text, ascii }, tape, facts)
}

// 1 to 12, 15 and 16: settings, text and tape; and in `facts`, which has room for each node, what is to be known of them.
pub fn check_call(
    width: u64,
    case: u64,
    text: &[u8],
    tape: &[u8],
    facts: &mut [u8],
) -> Result<(), Refusal>
    requires { length tape.now ≤ 262144 → length tape.now ≤ 11 * length facts.old }
    ensures { (result ≡ verdict (read_call width case text.now tape.now)) × NotedOf (read_call width case text.now tape.now) facts.new }
{
    if 16 < width {
        return Err(Refusal {
            fault: Fault::IndentWidth,
            at: 0,
        });
    }
    if 1 < case {
        return Err(Refusal {
            fault: Fault::CaseByte,
            at: 0,
        });
    }
    check_input(text, tape, facts)
}
