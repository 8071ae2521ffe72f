// The C interface: each function of `qdesk` under its name in C (include/qdesk.h), with the same clauses. Its parameters stand apart, as they do in C.
#![tactic(auto)]

ghost use Rattle.std.specs.Prelude.{◌≡◌, ltb};
ghost use Rattle.book.specs.Report.{Called, reported};
ghost use Rattle.keywords.specs.Words.{word_of};
ghost use Rattle.layout.specs.Layout.{original};
ghost use Rattle.layout.specs.MapCall.{Mapped, mapped};
ghost use Rattle.layout.specs.Outcome.{Result, laid_out, outcome};
ghost use Rattle.book.specs.Tally.{tally_of};
ghost use Rattle.qdesk.specs.WordAnswer.{word_answer};

use layout::Answer;

#[unsafe(no_mangle)]
pub extern "C" fn qdesk_layout(
    text: &[u8],
    tape: &[u8],
    width: u64,
    case: u64,
    out: &mut [u8],
) -> Answer
    ensures { ◌≡◌ {A = Result} (record { answer = result; space = out.new }) (laid_out (outcome original width case text.now tape.now) out.old) }
{
    qdesk::qdesk_layout(text, tape, width, case, out)
}

#[unsafe(no_mangle)]
pub extern "C" fn qdesk_layout_map(
    text: &[u8],
    tape: &[u8],
    width: u64,
    case: u64,
    out: &mut [u8],
    map: &mut [u64],
) -> Answer
    ensures { ◌≡◌ {A = Mapped} (record { answer = result; space = out.new; map = map.new }) (mapped width case text.now tape.now out.old map.old) }
{
    qdesk::qdesk_layout_map(text, tape, width, case, out, map)
}

#[unsafe(no_mangle)]
pub extern "C" fn qdesk_word(word: &[u8]) -> Answer
    ensures { result ≡ word_answer (word_of word.now) }
{
    qdesk::qdesk_word(word)
}

#[unsafe(no_mangle)]
pub extern "C" fn qdesk_report(
    book: &[u8],
    more: u64,
    tally: &mut [u64; 4],
    work: &mut [u8; 65536],
    out: &mut [u8],
) -> usize
    ensures { ◌≡◌ {A = Called} (record { end = result; space = out.new; work = work.new; tally = tally_of tally.new }) (reported (ltb 0 more) book.now (tally_of tally.old) work.old out.old) }
{
    qdesk::qdesk_report(book, more, tally, work, out)
}
