// Replays a stored list of calls: reads it from standard input, and prints how many of its records differ, or which one is bad.
#![tactic(auto)]

use std::io;
use std::io::Write;

// The arrays lie on the stack, since there is no heap.
fn main(rt: HostRuntime) -> io::Result<()> {
    let mut list = [0u8; 1048576];
    let mut line = [0u8; 128];
    let read = input::read_input(&mut rt.stdin(), &mut list);
    let n = replay_list::print_replayed(&list[..read.length], read.more, &mut line);
    rt.stdout().write_all(&line[..n])
}
