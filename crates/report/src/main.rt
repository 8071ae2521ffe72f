// The second program: reads a book from standard input, and prints the report over it.
#![tactic(auto)]

use book::Tally;
use std::io;
use std::io::Write;

// The arrays lie on the stack, since there is no heap.
fn main(rt: HostRuntime) -> io::Result<()> {
    let mut book = [0u8; 65536];
    let mut work = [0u8; 65536];
    let mut out = [0u8; 65536];
    let read = input::read_input(&mut rt.stdin(), &mut book);
    let done = book::report_from(
        &book[..read.length],
        read.more,
        Tally::default(),
        &mut work,
        &mut out,
    );
    rt.stdout().write_all(&out[..done.put])
}
