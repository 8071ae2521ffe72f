// What the desk's program prints for a job: the layout, or the line of a refusal.
#![tactic(auto)]

pub mod write;

ghost use Rattle.std.specs.Prelude.{◌≡◌, ◌<◌, ◌≤◌, true, false, length, MatchResult};
ghost use Rattle.layout.specs.Outcome.{Result as CallResult};
ghost use Rattle.desk_job.specs.declared.JobRefused.TheVariants.{Layout};
ghost use Rattle.desk_job.specs.Job.{has_command, text_end, read_header, answered, refusal_number, refusal_place, job_answer, leaves, refused_line, printed};
ghost use Rattle.desk_job.specs.Written.{Written, written};

use formatter::layout;
use layout::Refused;
use tape::commands::u32_at;
use write::Writer;

// The first byte of each header command: the indent's width, the case of keywords, the text's length.
const WIDTH: u8 = 0x10;

const CASE: u8 = 0x11;

const TEXT: u8 = 0x12;

// What the three header commands say, and where the text ends.
#[derive(Clone, Copy)]
pub struct Header {
    pub width: u64,
    pub case: u64,
    pub end: usize,
}

// Why a job is refused: for its header, at a place; or as `layout` refuses what it holds. Each case has a value, so that it is no Option.
#[derive(Clone, Copy, Debug, PartialEq, Eq)]
pub enum JobRefused {
    Header(u64),
    Layout(Refused),
}

impl From<Refused> for JobRefused {
    ghost from_gives = { λ refused answer. answer ≡ Layout refused };

    fn from(refused: Refused) -> JobRefused {
        JobRefused::Layout(refused)
    }
}

// Two methods and no trait, as of `Refused` (layout/src/lib.rt).
impl JobRefused {
    // The refusal's number.
    pub fn number(self) -> u64
        ensures { result ≡ refusal_number self }
    {
        match self {
            JobRefused::Header(_) => 14,
            JobRefused::Layout(refused) => refused.number(),
        }
    }

    // The place, or the needed length where that is refused.
    pub fn place(self) -> u64
        ensures { result ≡ refusal_place self }
    {
        match self {
            JobRefused::Header(place) => place,
            JobRefused::Layout(refused) => refused.value(),
        }
    }
}

// The command has to stand at `at`, whole up to `end`, and is refused there. The place lies before the end, so the test of the end is one of the place.
// A place in the job, since a refusal names it.
#[tactic(auto, using(std::proofs::lemmas::Bool::Decides::nat_tests), unfolding(crate::specs::Job::has_command))]
fn check_command(job: &[u8], at: usize, end: usize, command: u8) -> Result<(), u64>
    requires { at < end }
    ensures { MatchResult result (λ _. (end ≤ length job.now) × (has_command job.now at end command ≡ true)) (λ place. (place ≡ at) × (has_command job.now at end command ≡ false)) }
{
    if end <= job.len() && job[at] == command {
        return Ok(());
    }
    Err(at as u64)
}

// Where the text ends: its length is the third command's operand, which must be whole.
#[tactic(auto, unfolding(crate::specs::Job::text_end))]
fn text_end(job: &[u8]) -> usize
    requires { 9 ≤ length job.now }
    ensures { result ≡ text_end job.now }
{
    9 + u32_at(job, 5) as usize
}

// The header, or where it is refused. `more`: whether the input goes on after the job's bytes; apart from them, since a book hands its jobs on with `false`.
#[tactic(auto, using(std::proofs::lemmas::Bool::Decides::nat_tests), unfolding(crate::specs::Job::read_header))]
fn read_header(job: &[u8], more: bool) -> Result<Header, u64>
    ensures { result ≡ read_header more job.now }
{
    if more || 65536 < job.len() {
        return Err(65536);
    }
    check_command(job, 0, 2, WIDTH)?;
    check_command(job, 2, 4, CASE)?;
    check_command(job, 4, 9, TEXT)?;
    let end = text_end(job);
    if job.len() < end {
        return Err(4);
    }
    Ok(Header {
        width: u64::from(job[1]),
        case: u64::from(job[3]),
        end,
    })
}

// How the program answers a job: the length of its layout, which then stands in `out`; or why it is refused.
pub fn answer_job(job: &[u8], more: bool, out: &mut [u8]) -> Result<usize, JobRefused>
    ensures { ◌≡◌ {A = CallResult} (record { answer = job_answer result; space = out.new }) (leaves (answered more job.now (length out.old)) out.old) }
{
    let header = read_header(job, more).map_err(JobRefused::Header)?;
    let length = layout(
        &job[9..header.end],
        &job[header.end..],
        header.width,
        header.case,
        out,
    )?;
    Ok(length)
}

// "refused N at P" and a newline.
pub fn print_refusal(number: u64, place: u64, out: &mut [u8]) -> usize
    ensures { ◌≡◌ {A = Written} (record { end = result; space = out.new }) (written 0 (refused_line number place) out.old) }
{
    let mut writer = Writer::new(out);
    writer.put_pair(b"refused ", number, b" at ", place);
    writer.end()
}

// Puts what the job prints into `out`, as far as that goes, and answers how many bytes it has put.
pub fn print_job(job: &[u8], more: bool, out: &mut [u8]) -> usize
    ensures { ◌≡◌ {A = Written} (record { end = result; space = out.new }) (written 0 (printed more job.now (length out.old)) out.old) }
{
    match answer_job(job, more, out) {
        Ok(length) => length,
        Err(refused) => print_refusal(refused.number(), refused.place(), out),
    }
}
