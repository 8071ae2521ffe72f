// The walk over the book that comes first: 18, 19 or the number of jobs. It goes by places in the book, since a refusal names one.
ghost use Rattle.std.specs.Prelude.{◌≡◌, ◌+◌, ◌≤◌, length};
ghost use Rattle.book.specs.Book.{job_end, is_whole, opened, fault_number, fault_place};

use tape::commands::u32_at;

// The first byte of the command before each job.
const JOB: u8 = 0x20;

// Why a book is refused: it is longer than 65,536 bytes; no book command stands whole at a place; or a 257th job stands there.
#[derive(Clone, Copy)]
pub enum BookFault {
    TooLong,
    NotWhole(usize),
    TooMany(usize),
}

// Two methods and no trait, as of `Refused` (layout/src/lib.rt).
impl BookFault {
    // The refusal's number.
    pub fn number(self) -> u64
        ensures { result ≡ fault_number self }
    {
        match self {
            BookFault::TooLong | BookFault::NotWhole(_) => 18,
            BookFault::TooMany(_) => 19,
        }
    }

    // Where in the book it is.
    pub fn place(self) -> u64
        ensures { result ≡ fault_place self }
    {
        match self {
            BookFault::TooLong => 65536,
            BookFault::NotWhole(at) | BookFault::TooMany(at) => at as u64,
        }
    }
}

// Where the job of the command at `at` ends.
#[tactic(auto, unfolding(crate::specs::Book::job_end))]
pub fn job_end(book: &[u8], at: usize) -> usize
    requires { (at + 5 ≤ length book.now) × (length book.now ≤ 65536) }
    ensures { result ≡ job_end book.now at }
{
    at + 5 + u32_at(book, at + 1) as usize
}

// Whether a book command stands at `at`, whole with its job.
#[tactic(auto, using(std::proofs::lemmas::Bool::Decides::nat_tests), unfolding(crate::specs::Book::is_whole))]
fn is_whole(book: &[u8], at: usize) -> bool
    requires { (at ≤ length book.now) × (length book.now ≤ 65536) }
    ensures { result ≡ is_whole book.now at }
{
    at + 5 <= book.len() && book[at] == JOB && job_end(book, at) <= book.len()
}

// The number of jobs. `more`: whether the input goes on after the book's bytes.
#[tactic(auto, using(std::proofs::lemmas::Bool::Decides::nat_tests, crate::proofs::Opening::whole_job), unfolding(crate::specs::Book::opened))]
pub fn open_book(book: &[u8], more: bool) -> Result<usize, BookFault>
    ensures { result ≡ opened more book.now }
{
    if more || 65536 < book.len() {
        return Err(BookFault::TooLong);
    }
    // A place that moves on, since each job's length says where the next command stands.
    let mut at = 0;
    let mut jobs = 0;
    while at < book.len() {
        if !is_whole(book, at) {
            return Err(BookFault::NotWhole(at));
        }
        if jobs == 256 {
            return Err(BookFault::TooMany(at));
        }
        at = job_end(book, at);
        jobs += 1;
    }
    Ok(jobs)
}
