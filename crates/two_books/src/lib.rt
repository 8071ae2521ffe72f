// Two reports, one over each book: the masking rule for a whole book, request E7, from entry to exit.
#![tactic(auto)]

ghost use Rattle.two_books.specs.Both.{ReportsBoth};

use book::{Reported, Tally, report_from};

// Both calls are lent a tally of the same numbers; the working spaces may hold anything.
pub fn report_both(
    a: &[u8],
    b: &[u8],
    more: bool,
    tally: Tally,
    work_a: &mut [u8; 65536],
    work_b: &mut [u8; 65536],
    out_a: &mut [u8],
    out_b: &mut [u8],
) -> (Reported, Reported)
    ensures { ReportsBoth more a.now b.now tally work_a.old work_b.old out_a.old out_b.old result work_a.new work_b.new out_a.new out_b.new }
{
    let first = report_from(a, more, tally, work_a, out_a);
    let second = report_from(b, more, tally, work_b, out_b);
    (first, second)
}
