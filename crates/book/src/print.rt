// The lines of a report.
ghost use Rattle.desk_job.specs.Puts.{Puts};
ghost use Rattle.book.specs.Report.{job_line, total_line};

use crate::Tally;
use crate::told::{LaidOut, Refusal};
use desk_job::write::Writer;

pub fn put_job(out: &mut Writer<'_>, n: u64, told: Result<LaidOut, Refusal>)
    ensures { Puts out.old (job_line n told) out.new }
{
    out.put_decimal(20, n);
    match told {
        Ok(laid_out) => out.put_pair(b" bytes ", laid_out.bytes, b" lines ", laid_out.lines),
        Err(refusal) => out.put_pair(b" refused ", refusal.number, b" at ", refusal.place),
    }
}

pub fn put_total(out: &mut Writer<'_>, tally: Tally)
    ensures { Puts out.old (total_line tally) out.new }
{
    out.put_field(b"total jobs ", tally.jobs);
    out.put_field(b" refused ", tally.refused);
    out.put_pair(b" bytes ", tally.bytes, b" lines ", tally.lines);
}
