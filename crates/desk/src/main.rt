// The desk's program: reads a job from standard input, and prints its layout or its refusal.
#![tactic(auto)]

use std::io;
use std::io::Write;

// The arrays lie on the stack, since there is no heap.
fn main(rt: HostRuntime) -> io::Result<()> {
    let mut job = [0u8; 65536];
    let mut out = [0u8; 65536];
    let read = input::read_input(&mut rt.stdin(), &mut job);
    let n = desk_job::print_job(&job[..read.length], read.more, &mut out);
    rt.stdout().write_all(&out[..n])
}
