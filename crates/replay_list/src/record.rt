// A record's nine numbers, each at its fixed place, and whether they keep to the limits that the list promises.
ghost use Rattle.std.specs.Prelude.{◌≡◌, true, None, ◌+◌, ◌≤◌, length, MatchOption};
ghost use Rattle.replay_list.specs.Record.{number_at, run_at, head_of, run_fits, fitting, layout_length, tape_start, layout_start, record_end};
ghost use Rattle.replay_list.specs.Replay.{verdict};

use crate::{RecordHead, Run};
use tape::commands::bytes_at;

// The numbers of a record that keeps to the limits.
#[derive(Clone, Copy)]
pub(crate) struct FittingHead {
    pub(crate) head: RecordHead,
    ghost fits: { fitting head ≡ true },
}

pub(crate) fn u64_at(bytes: &[u8], at: usize) -> u64
    requires { at + 8 ≤ length bytes.now }
    ensures { result ≡ number_at bytes.now at }
{
    u64::from_le_bytes(bytes_at(bytes, at))
}

fn run_at(bytes: &[u8], at: usize) -> Run
    requires { at + 16 ≤ length bytes.now }
    ensures { result ≡ run_at bytes.now at }
{
    Run {
        stored: u64_at(bytes, at),
        zeros: u64_at(bytes, at + 8),
    }
}

#[tactic(auto, unfolding(crate::specs::Record::head_of))]
pub fn read_head(bytes: &[u8]) -> RecordHead
    requires { 72 ≤ length bytes.now }
    ensures { result ≡ head_of bytes.now }
{
    RecordHead {
        width: u64_at(bytes, 0),
        case: u64_at(bytes, 8),
        text: run_at(bytes, 16),
        tape: run_at(bytes, 32),
        space: u64_at(bytes, 48),
        number: u64_at(bytes, 56),
        value: u64_at(bytes, 64),
    }
}

impl Run {
    #[tactic(auto, unfolding(crate::specs::Record::run_fits))]
    fn fits(self) -> bool
        ensures { result ≡ run_fits self }
    {
        self.stored <= 4096 && self.zeros <= 262145 - self.stored
    }

    // The length of a run that fits, with its zeros.
    #[tactic(auto, using(crate::proofs::RecordLimits::run_within))]
    pub(crate) fn length(self) -> usize
        requires { run_fits self ≡ true }
        ensures { result ≡ self.stored + self.zeros }
    {
        (self.stored + self.zeros) as usize
    }
}

impl RecordHead {
    // How many bytes of layout are stored: none where the call is refused. By the number as it is stored, as in agree.rt.
    fn layout_length(self) -> u64
        ensures { result ≡ layout_length self }
    {
        if self.number == 0 { self.value } else { 0 }
    }

    // Whether the record keeps to the limits.
    #[tactic(auto, unfolding(crate::specs::Record::fitting))]
    fn fits(self) -> bool
        ensures { result ≡ fitting self }
    {
        self.text.fits()
            && self.tape.fits()
            && self.space <= 4096
            && self.layout_length() <= self.space
    }
}

impl FittingHead {
    // Those of the record at the front of the bytes; none where they are cut or break a limit.
    pub(crate) fn read(bytes: &[u8]) -> Option<Self>
        ensures { MatchOption result (verdict bytes.now ≡ None) (λ r. (72 ≤ length bytes.now) × (r.head ≡ head_of bytes.now)) }
    {
        if bytes.len() < 72 {
            return None;
        }
        let head = read_head(bytes);
        if !head.fits() {
            return None;
        }
        Some(FittingHead { head })
    }

    // Where the runs of the record begin, and where it ends.
    #[tactic(auto, using(crate::proofs::RecordLimits::within_limits))]
    pub(crate) fn tape_start(self) -> usize
        ensures { result ≡ tape_start self.head }
    {
        72 + self.head.text.stored as usize
    }

    #[tactic(auto, using(crate::proofs::RecordLimits::within_limits))]
    pub(crate) fn layout_start(self) -> usize
        ensures { result ≡ layout_start self.head }
    {
        self.tape_start() + self.head.tape.stored as usize
    }

    #[tactic(auto, using(crate::proofs::RecordLimits::within_limits))]
    pub(crate) fn end(self) -> usize
        ensures { result ≡ record_end self.head }
    {
        self.layout_start() + self.head.layout_length() as usize
    }
}
