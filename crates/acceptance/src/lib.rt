// What the customer is promised, one function for each demand: it makes the calls that the demand speaks of, asks nothing, and promises what
// the demand says. Nobody calls these functions. They are the page to read first, and a promise that is weakened below fails here.
// Text, tape, width and case are four parameters, and so are those of a report, as the C interface has them.
#![tactic(auto)]

ghost use Rattle.std.specs.Prelude.{◌≡◌, ltb, length};
ghost use Rattle.keywords.specs.Words.{capitals, same, word_of};
ghost use Rattle.layout.specs.Layout.{original};
ghost use Rattle.layout.specs.MapCall.{Mapped, mapped};
ghost use Rattle.layout.specs.Outcome.{Result, answer_of, laid_out, outcome};
ghost use Rattle.book.specs.Report.{Called, reported};
ghost use Rattle.desk_job.specs.Job.{printed};
ghost use Rattle.desk_job.specs.Written.{Written, written};
ghost use Rattle.book.specs.Tally.{tally_of};
ghost use Rattle.qdesk.specs.WordAnswer.{word_answer};
ghost use Rattle.acceptance.specs.Requests.{FirstEntry, MapsMasked, OneCall, ReportOver, SameReport, SortOfWord, TokenPlaces};
ghost use Rattle.acceptance.specs.Demands.{Demand1, Demand2, Demand3};

use book::{Reported, Tally, report_from};
use desk_job::print_job;
use formatter::{layout, layout_map};
use keywords::{Word, is_word, walk, word_of};
use layout::{Answer, Refused};
use qdesk::{qdesk_layout, qdesk_layout_map, qdesk_report, qdesk_word};
use two_books::report_both;
use two_calls::{layout_both, layout_map_both, layout_twice};

// Demand 1: bad input is refused with its number and place, nothing is written, and nothing else is refused.
#[tactic(auto, using(crate::proofs::Demands::demand1))]
pub fn demand_1(
    text: &[u8],
    tape: &[u8],
    width: u64,
    case: u64,
    out: &mut [u8],
) -> Result<usize, Refused>
    ensures { Demand1 width case text.now tape.now out.old (answer_of result) out.new }
{
    layout(text, tape, width, case, out)
}

// Demand 2: the bytes written are those of the definition that follows the source, and later bytes stay as they were.
#[tactic(auto, using(crate::proofs::Demands::demand2))]
pub fn demand_2(
    text: &[u8],
    tape: &[u8],
    width: u64,
    case: u64,
    out: &mut [u8],
) -> Result<usize, Refused>
    ensures { Demand2 width case text.now tape.now out.old (answer_of result) out.new }
{
    layout(text, tape, width, case, out)
}

// Demand 3: a query whose quoted names are masked lays out line for line like the query it came from.
pub fn demand_3(
    a: &[u8],
    b: &[u8],
    tape: &[u8],
    width: u64,
    case: u64,
    out_a: &mut [u8],
    out_b: &mut [u8],
) -> (Result<usize, Refused>, Result<usize, Refused>)
    ensures { Demand3 width case a.now b.now tape.now out_a.old out_b.old (answer_of result.0, answer_of result.1) out_a.new out_b.new }
{
    layout_both(a, b, tape, width, case, out_a, out_b)
}

// The C interface: laying out.
pub fn c_layout(text: &[u8], tape: &[u8], width: u64, case: u64, out: &mut [u8]) -> Answer
    ensures { ◌≡◌ {A = Result} (record { answer = result; space = out.new }) (laid_out (outcome original width case text.now tape.now) out.old) }
{
    qdesk_layout(text, tape, width, case, out)
}

// The desk's program: what it prints for a job, and nothing else of its buffer changes.
pub fn desk(job: &[u8], more: bool, out: &mut [u8]) -> usize
    ensures { ◌≡◌ {A = Written} (record { end = result; space = out.new }) (written 0 (printed more job.now (length out.old)) out.old) }
{
    print_job(job, more, out)
}

// E2: which of the three sorts of word it is, and a listed word's place.
#[tactic(auto, using(crate::proofs::Requests::sort_of_word))]
pub fn request_2(word: &[u8]) -> Word
    ensures { SortOfWord word.now result }
{
    word_of(word)
}

// E3: line and column of each token in the layout.
#[tactic(auto, using(crate::proofs::Maps::token_places))]
pub fn request_3(
    text: &[u8],
    tape: &[u8],
    width: u64,
    case: u64,
    out: &mut [u8],
    map: &mut [u64],
) -> Result<usize, Refused>
    ensures { TokenPlaces width case text.now tape.now out.old map.old (answer_of result) out.new map.new }
{
    layout_map(text, tape, width, case, out, map)
}

// E3: the masking rule covers the map too.
pub fn request_3_masked(
    a: &[u8],
    b: &[u8],
    tape: &[u8],
    width: u64,
    case: u64,
    out_a: &mut [u8],
    out_b: &mut [u8],
    map_a: &mut [u64],
    map_b: &mut [u64],
) -> (Result<usize, Refused>, Result<usize, Refused>)
    ensures { MapsMasked width case a.now b.now tape.now out_a.old out_b.old map_a.old map_b.old (answer_of result.0, answer_of result.1) out_a.new out_b.new map_a.new map_b.new }
{
    layout_map_both(a, b, tape, width, case, out_a, out_b, map_a, map_b)
}

// The C interface: laying out with a map.
pub fn c_layout_map(
    text: &[u8],
    tape: &[u8],
    width: u64,
    case: u64,
    out: &mut [u8],
    map: &mut [u64],
) -> Answer
    ensures { ◌≡◌ {A = Mapped} (record { answer = result; space = out.new; map = map.new }) (mapped width case text.now tape.now out.old map.old) }
{
    qdesk_layout_map(text, tape, width, case, out, map)
}

// E4: the first entry of the list that is equal to a length and bytes, whatever they are, or none. The length may be more than the bytes have, so it is no
// part of a slice.
#[tactic(auto, using(crate::proofs::Requests::first_entry))]
pub fn request_4(length: usize, bytes: &[u8]) -> Option<usize>
    ensures { FirstEntry length bytes.now result }
{
    walk(length, bytes)
}

// E5: one call for length and text, here in two spaces.
pub fn request_5(
    text: &[u8],
    tape: &[u8],
    width: u64,
    case: u64,
    out_a: &mut [u8],
    out_b: &mut [u8],
) -> (Result<usize, Refused>, Result<usize, Refused>)
    ensures { OneCall width case text.now tape.now out_a.old out_b.old (answer_of result.0, answer_of result.1) out_a.new out_b.new }
{
    layout_twice(text, tape, width, case, out_a, out_b)
}

// A word in any case beside one in capitals.
pub fn word(word: &[u8], caps: &[u8]) -> bool
    ensures { result ≡ same (capitals word.now) caps.now }
{
    is_word(word, caps)
}

// The C interface: the sort of a word.
pub fn c_word(word: &[u8]) -> Answer
    ensures { result ≡ word_answer (word_of word.now) }
{
    qdesk_word(word)
}

// E6: a report over a book of saved queries. The call itself, which is lent the tally, is `book::report`; this is the one that takes it by value.
pub fn request_6(
    book: &[u8],
    more: bool,
    tally: Tally,
    work: &mut [u8; 65536],
    out: &mut [u8],
) -> Reported
    ensures { ReportOver more book.now tally out.old result out.new }
{
    report_from(book, more, tally, work, out)
}

// E7: two books that differ only as the masking rule allows have the same report and the same tally.
pub fn request_7(
    a: &[u8],
    b: &[u8],
    more: bool,
    tally: Tally,
    work_a: &mut [u8; 65536],
    work_b: &mut [u8; 65536],
    out_a: &mut [u8],
    out_b: &mut [u8],
) -> (Reported, Reported)
    ensures { SameReport more a.now b.now tally out_a.old out_b.old result out_a.new out_b.new }
{
    report_both(a, b, more, tally, work_a, work_b, out_a, out_b)
}

// The C interface: a report.
pub fn c_report(
    book: &[u8],
    more: u64,
    tally: &mut [u64; 4],
    work: &mut [u8; 65536],
    out: &mut [u8],
) -> usize
    ensures { ◌≡◌ {A = Called} (record { end = result; space = out.new; work = work.new; tally = tally_of tally.new }) (reported (ltb 0 more) book.now (tally_of tally.old) work.old out.old) }
{
    qdesk_report(book, more, tally, work, out)
}
