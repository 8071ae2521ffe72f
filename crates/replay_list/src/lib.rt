// A stored list of calls, replayed: the call of each record is made, in no space and in the record's, and compared with it, and the line is put that
// says how it went.
#![tactic(auto)]

mod agree;
mod line;
mod record;
mod replay;

ghost use Rattle.std.specs.Prelude.{◌≡◌};
ghost use Rattle.desk_job.specs.Written.{Written, written};
ghost use Rattle.replay_list.specs.Replay.{replayed};
ghost use Rattle.replay_list.specs.Line.{replayed_line};

use line::{print_bad, print_end};
use replay::replay_list;

// A text or a tape: how many of its bytes are stored, and how many zeros stand after them.
#[derive(Clone, Copy)]
pub struct Run {
    pub stored: u64,
    pub zeros: u64,
}

// The nine numbers of a record: the call, the length of its output space, and its answer.
#[derive(Clone, Copy)]
pub struct RecordHead {
    pub width: u64,
    pub case: u64,
    pub text: Run,
    pub tape: Run,
    pub space: u64,
    pub number: u64,
    pub value: u64,
}

// What a whole record within the limits comes to: whether both calls agree with it, and where it ends. Both hold of each.
#[derive(Clone, Copy)]
pub struct Compared {
    pub agreed: bool,
    pub end: usize,
}

// So many records, so many of which differ, and the number of the first of these where there is one.
#[derive(Clone, Copy, Default)]
pub struct Tally {
    pub records: u64,
    pub differ: u64,
    pub first: Option<u64>,
}

// The list is bad at a record.
#[derive(Clone, Copy)]
pub struct BadRecord {
    pub at: u64,
}

// Puts the line that is printed for the list into `out`, as far as that goes, and answers how many bytes it has put.
// `more`: whether the input goes on after the list's bytes.
#[tactic(auto, unfolding(crate::specs::Line::replayed_line))]
pub fn print_replayed(list: &[u8], more: bool, out: &mut [u8]) -> usize
    ensures { ◌≡◌ {A = Written} (record { end = result; space = out.new }) (written 0 (replayed_line (replayed more list.now)) out.old) }
{
    match replay_list(list, more) {
        Ok(tally) => print_end(tally.records, tally.differ, tally.first, out),
        Err(bad) => print_bad(bad.at, out),
    }
}
