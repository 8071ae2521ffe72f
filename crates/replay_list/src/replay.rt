// The list, record by record.
ghost use Rattle.std.specs.Prelude.{◌≡◌, ◌≤◌, ◌<◌, ◌++◌, drop, length};
ghost use Rattle.replay_list.specs.Record.{record_end};
ghost use Rattle.replay_list.specs.Replay.{record_agrees, verdict, counted, replayed};

use crate::agree::calls_agree;
use crate::record::{FittingHead, u64_at};
use crate::{BadRecord, Compared, Tally};

// A run's stored bytes, at the front of a space.
fn copy_to_front(space: &mut [u8], stored: &[u8])
    requires { length stored.now ≤ length space.old }
    ensures { space.new ≡ stored.now ++ drop (length stored.now) space.old }
{
    space[..stored.len()].copy_from_slice(stored);
}

// Makes both calls of a whole record. The arrays lie on the stack, since there is no heap, and hold zeros behind what is copied into them.
#[tactic(auto, using(crate::proofs::RecordLimits::within_limits))]
fn record_agrees(bytes: &[u8], fitting: FittingHead) -> bool
    requires { record_end fitting.head ≤ length bytes.now }
    ensures { result ≡ record_agrees bytes.now fitting.head }
{
    let mut text = [0u8; 262145];
    let mut tape = [0u8; 262145];
    let mut out = [0u8; 4096];
    let head = fitting.head;
    let tape_at = fitting.tape_start();
    let layout_at = fitting.layout_start();
    let end = fitting.end();
    copy_to_front(&mut text, &bytes[72..tape_at]);
    copy_to_front(&mut tape, &bytes[tape_at..layout_at]);
    let text_end = head.text.length();
    let tape_end = head.tape.length();
    let space = head.space as usize;
    calls_agree(
        head,
        &text[..text_end],
        &tape[..tape_end],
        &bytes[layout_at..end],
        &mut out[..space],
    )
}

// The record at the front of the bytes; none where it is cut or breaks a limit.
fn replay_record(bytes: &[u8]) -> Option<Compared>
    ensures { result ≡ verdict bytes.now }
{
    let fitting = FittingHead::read(bytes)?;
    let end = fitting.end();
    if bytes.len() < end {
        return None;
    }
    let agreed = record_agrees(bytes, fitting);
    Some(Compared { agreed, end })
}

impl Tally {
    // One record more.
    #[tactic(auto, unfolding(crate::specs::Replay::counted))]
    fn counted(self, agreed: bool) -> Self
        requires few { self.differ ≤ self.records }
        requires room { self.records < 18446744073709551615 }
        ensures { result ≡ counted self agreed }
    {
        let records = self.records + 1;
        if agreed {
            return Tally { records, ..self };
        }
        Tally {
            records,
            differ: self.differ + 1,
            first: self.first.or(Some(self.records)),
        }
    }
}

// `more`: whether the input goes on after the list's bytes.
pub(crate) fn replay_list(list: &[u8], more: bool) -> Result<Tally, BadRecord>
    ensures { result ≡ replayed more list.now }
{
    if list.len() < 8 {
        return Err(BadRecord { at: 0 });
    }
    let records = u64_at(list, 0);
    let mut rest = &list[8..];
    let mut tally = Tally::default();
    for at in 0..records {
        let Some(compared) = replay_record(rest) else {
            return Err(BadRecord { at });
        };
        tally = tally.counted(compared.agreed);
        rest = &rest[compared.end..];
    }
    if more {
        return Err(BadRecord { at: records });
    }
    if !rest.is_empty() {
        return Err(BadRecord { at: records });
    }
    Ok(tally)
}
