// A report over a book of saved queries: the book is walked first, and then each job is answered as the desk's program does it, and told on a line.
#![tactic(auto)]

mod open;
mod print;
mod told;

ghost use Rattle.std.specs.Prelude.{◌≡◌, List, ℕ, length};
ghost use Rattle.desk_job.specs.Puts.{Puts};
ghost use Rattle.book.specs.Book.{job_end, job_at};
ghost use Rattle.book.specs.Told.{telling, answered_job};
ghost use Rattle.book.specs.Tally.{tally_of, numbers_of, with_job, Room};
ghost use Rattle.book.specs.Report.{Called, job_line, reported};
ghost use Rattle.book.specs.Steps.{Stepped, Ready};

use desk_job::print_refusal;
use desk_job::write::Writer;
pub use open::BookFault;
use open::{job_end, open_book};
use print::{put_job, put_total};
use told::{LaidOut, Refusal, tell};

// What a report counts: a record that is lent to the call and raised in place for each job. By value one job is one step.
#[derive(Clone, Copy, Default)]
pub struct Tally {
    pub jobs: u64,
    pub refused: u64,
    pub bytes: u64,
    pub lines: u64,
}

// As four numbers, in the record's order, as the C interface has it.
impl From<[u64; 4]> for Tally {
    ghost from_gives = { λ numbers tally. tally ≡ tally_of numbers };

    fn from(numbers: [u64; 4]) -> Tally {
        let [jobs, refused, bytes, lines] = numbers;
        Tally {
            jobs,
            refused,
            bytes,
            lines,
        }
    }
}

impl From<Tally> for [u64; 4] {
    ghost from_gives = { λ tally numbers. numbers ≡ numbers_of tally };

    fn from(tally: Tally) -> [u64; 4] {
        [tally.jobs, tally.refused, tally.bytes, tally.lines]
    }
}

impl Tally {
    // One job more.
    #[tactic(auto, unfolding(crate::specs::Tally::with_job, crate::specs::Tally::bytes_told, crate::specs::Tally::lines_told))]
    fn with_job(self, told: Result<LaidOut, Refusal>) -> Tally
        requires { Room self told }
        ensures { result ≡ with_job self told }
    {
        let jobs = self.jobs + 1;
        match told {
            Ok(out) => Tally {
                jobs,
                bytes: self.bytes + out.bytes,
                lines: self.lines + out.lines,
                ..self
            },
            Err(_) => Tally {
                jobs,
                refused: self.refused + 1,
                ..self
            },
        }
    }
}

// How far a report is: where the next job's command stands, and what is counted so far.
#[derive(Clone, Copy)]
struct Run {
    pub at: usize,
    pub tally: Tally,
}

// How many bytes the report has, as far as the space goes, and the tally afterwards.
#[derive(Clone, Copy)]
pub struct Reported {
    pub put: usize,
    pub tally: Tally,
}

// One job: it is answered in the working space, its line is put, and the tally is raised.
#[tactic(auto, using(crate::proofs::Opening::whole_job))]
fn next(book: &[u8], run: Run, work: &mut [u8; 65536], out: &mut Writer<'_>) -> Run
    requires { Ready book.now run }
    ensures { Stepped book.now run work.old out.old result work.new out.new }
{
    let end = job_end(book, run.at);
    let told = tell(&book[run.at + 5..end], work);
    put_job(out, run.tally.jobs + 1, told);
    Run {
        at: end,
        tally: run.tally.with_job(told),
    }
}

// The call: puts the report into `out`, as far as that goes, answers how many bytes it has put, and raises the lent tally in place for each job.
// Jobs are laid out in `work`, as the desk's program does it in its output buffer. A refused book leaves the tally as it was.
pub fn report(
    book: &[u8],
    more: bool,
    tally: &mut Tally,
    work: &mut [u8; 65536],
    out: &mut [u8],
) -> usize
    ensures { ◌≡◌ {A = Called} (record { end = result; space = out.new; work = work.new; tally = tally.new }) (reported more book.now tally.old work.old out.old) }
{
    let count = match open_book(book, more) {
        Ok(count) => count,
        Err(fault) => return print_refusal(fault.number(), fault.place(), out),
    };
    let mut writer = Writer::new(out);
    let mut run = Run {
        at: 0,
        tally: Tally::default(),
    };
    *tally = run.tally;
    for _ in 0..count {
        // What is counted so far is what the lent record holds.
        let counted = Run {
            at: run.at,
            tally: *tally,
        };
        run = next(book, counted, work, &mut writer);
        *tally = run.tally;
    }
    put_total(&mut writer, *tally);
    writer.end()
}

// The same for callers with plain values: a record of its own is lent to the call and handed back.
pub fn report_from(
    book: &[u8],
    more: bool,
    tally: Tally,
    work: &mut [u8; 65536],
    out: &mut [u8],
) -> Reported
    ensures { ◌≡◌ {A = Called} (record { end = result.put; space = out.new; work = work.new; tally = result.tally }) (reported more book.now tally work.old out.old) }
{
    let mut own = tally;
    let put = report(book, more, &mut own, work, out);
    Reported { put, tally: own }
}
