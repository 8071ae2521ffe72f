// What a report tells of a job: the program's answer, which is laid out in a working space and counted there.
ghost use Rattle.std.specs.Prelude.{◌≡◌, false, length};
ghost use Rattle.desk_job.specs.Job.{answered};
ghost use Rattle.book.specs.Told.{Telling, telling, refusal_of};

use context::count_newlines;
use desk_job::{JobRefused, answer_job};

// The bytes and the lines of the output.
#[derive(Clone, Copy)]
pub struct LaidOut {
    pub bytes: u64,
    pub lines: u64,
}

// A refusal's number and place.
#[derive(Clone, Copy)]
pub struct Refusal {
    pub number: u64,
    pub place: u64,
}

impl From<JobRefused> for Refusal {
    ghost from_gives = { λ refused refusal. refusal ≡ refusal_of refused };

    fn from(refused: JobRefused) -> Refusal {
        Refusal {
            number: refused.number(),
            place: refused.place(),
        }
    }
}

// A job of a book has an end, so that nothing follows it.
pub fn tell(job: &[u8], work: &mut [u8]) -> Result<LaidOut, Refusal>
    ensures { ◌≡◌ {A = Telling} (record { told = result; work = work.new }) (telling (answered false job.now (length work.old)) work.old) }
{
    let length = answer_job(job, false, work)?;
    Ok(LaidOut {
        bytes: length as u64,
        lines: count_newlines(&work[..length]) as u64,
    })
}
