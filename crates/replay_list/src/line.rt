// The line that is printed for a list.
ghost use Rattle.std.specs.Prelude.{◌≡◌};
ghost use Rattle.desk_job.specs.Written.{Written, written};
ghost use Rattle.replay_list.specs.Line.{bad_line, end_line};

use desk_job::write::Writer;

// The list is bad at a record.
pub(crate) fn print_bad(at: u64, out: &mut [u8]) -> usize
    ensures { ◌≡◌ {A = Written} (record { end = result; space = out.new }) (written 0 (bad_line at) out.old) }
{
    let mut writer = Writer::new(out);
    writer.put_all(b"bad list at record ");
    writer.put_decimal(20, at);
    writer.put_all(b"\n");
    writer.end()
}

// The first record that differs is named where there is one.
pub(crate) fn print_end(count: u64, differ: u64, first: Option<u64>, out: &mut [u8]) -> usize
    ensures { ◌≡◌ {A = Written} (record { end = result; space = out.new }) (written 0 (end_line count differ first) out.old) }
{
    let mut writer = Writer::new(out);
    writer.put_decimal(20, count);
    writer.put_all(b" vectors, ");
    writer.put_decimal(20, differ);
    writer.put_all(b" differ");
    if let Some(first) = first {
        writer.put_all(b", the first is ");
        writer.put_decimal(20, first);
    }
    writer.put_all(b"\n");
    writer.end()
}
