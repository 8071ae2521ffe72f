// What the programs read: an input into a buffer, and whether it goes on after a full one.
#![tactic(auto)]

ghost use Rattle.std.specs.Prelude.{◌≡◌, ◌≤◌, length, take};

use std::io::Read;

// How many bytes were read, and whether the input goes on after them. A count and no slice, which would keep the buffer borrowed: the clauses speak of the
// buffer after the call.
#[derive(Clone, Copy)]
pub struct Input {
    pub length: usize,
    pub more: bool,
}

// Reads until the buffer is full or the input ends, and tells how many bytes that are. A read that fails counts as the input's end. The library's
// read_to_end needs a heap, and its read_exact doesn't tell how many bytes came before the end.
fn fill<R: Read>(reader: &mut R, buffer: &mut [u8]) -> usize
    ensures { result ≤ length buffer.new }
{
    let mut length = 0;
    while length < buffer.len() {
        match reader.read(&mut buffer[length..]) {
            Ok(0) | Err(_) => break,
            Ok(n) => length += n,
        }
    }
    length
}

pub fn read_input<R: Read>(reader: &mut R, buffer: &mut [u8]) -> Input
    ensures within { result.length ≤ length buffer.new }
    ensures prefix { result.length ≡ length (take result.length buffer.new) }
{
    Input {
        length: fill(reader, buffer),
        more: matches!(reader.read(&mut [0]), Ok(1)),
    }
}
