// Every entry of the library: each calls a proved function and makes numbers of its answer. `qdesk_c` hands them to C.
#![tactic(auto)]

ghost use Rattle.std.specs.Prelude.{◌≡◌, ltb};
ghost use Rattle.book.specs.Report.{Called, reported};
ghost use Rattle.keywords.specs.Words.{word_of};
ghost use Rattle.layout.specs.Layout.{original};
ghost use Rattle.layout.specs.MapCall.{Mapped, mapped};
ghost use Rattle.layout.specs.Outcome.{Result, laid_out, outcome};
ghost use Rattle.book.specs.Tally.{tally_of};
ghost use Rattle.qdesk.specs.WordAnswer.{word_answer};

use book::{Tally, report_from};
use formatter::{layout, layout_map};
use keywords::{Word, word_of};
use layout::Answer;

pub fn qdesk_layout(text: &[u8], tape: &[u8], width: u64, case: u64, out: &mut [u8]) -> Answer
    ensures { ◌≡◌ {A = Result} (record { answer = result; space = out.new }) (laid_out (outcome original width case text.now tape.now) out.old) }
{
    Answer::from(layout(text, tape, width, case, out))
}

pub fn qdesk_layout_map(
    text: &[u8],
    tape: &[u8],
    width: u64,
    case: u64,
    out: &mut [u8],
    map: &mut [u64],
) -> Answer
    ensures { ◌≡◌ {A = Mapped} (record { answer = result; space = out.new; map = map.new }) (mapped width case text.now tape.now out.old map.old) }
{
    Answer::from(layout_map(text, tape, width, case, out, map))
}

pub fn qdesk_word(word: &[u8]) -> Answer
    ensures { result ≡ word_answer (word_of word.now) }
{
    // The sort is a number, as the C interface has it. Not a `From`: it would stand in layout, which has no use for it, and its definition with it.
    match word_of(word) {
        Word::Plain => Answer {
            number: 0,
            value: 0,
        },
        Word::Value(place) => Answer {
            number: 1,
            value: place as u64,
        },
        Word::Keyword(place) => Answer {
            number: 2,
            value: place as u64,
        },
    }
}

// The tally is four numbers here, in the record's order. `more` is 0, or the book goes on after these bytes.
pub fn qdesk_report(
    book: &[u8],
    more: u64,
    tally: &mut [u64; 4],
    work: &mut [u8; 65536],
    out: &mut [u8],
) -> usize
    ensures { ◌≡◌ {A = Called} (record { end = result; space = out.new; work = work.new; tally = tally_of tally.new }) (reported (ltb 0 more) book.now (tally_of tally.old) work.old out.old) }
{
    let done = report_from(book, 0 < more, Tally::from(*tally), work, out);
    *tally = <[u64; 4]>::from(done.tally);
    done.put
}
