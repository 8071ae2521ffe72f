// Bytes, decimal numbers and lines of them written into a lent space, as far as it goes. Each function starts within the space and answers where it ended;
// a writer keeps both, for those who write several lines. What a line takes is worked out here in numbers and stored in the writer once: with a writer in
// memory at each number and label, and the library's digits, a report on jobs that are all refused takes 1.6 times as long.
ghost use Rattle.std.specs.Prelude.{◌≡◌, [], ◌∷◌, ◌≤◌, length};
ghost use Rattle.desk_job.specs.Written.{Written, written};
ghost use Rattle.desk_job.specs.Job.{decimal, field, pair};

fn put(out: &mut [u8], at: usize, b: u8) -> usize
    requires { at ≤ length out.old }
    ensures { ◌≡◌ {A = Written} (record { end = result; space = out.new }) (written at (b ∷ []) out.old) }
{
    if out.len() <= at {
        return at;
    }
    out[at] = b;
    at + 1
}

// Byte by byte: of a text that the compiler knows, a copy would be a memcpy, which the library for C would ask its user for.
pub fn put_all(out: &mut [u8], start: usize, text: &[u8]) -> usize
    requires { start ≤ length out.old }
    ensures { ◌≡◌ {A = Written} (record { end = result; space = out.new }) (written start text.now out.old) }
{
    let mut at = start;
    for b in text {
        at = put(out, at, *b);
    }
    at
}

// The decimal digits of n, the last ones where they are more than `places`.
pub fn put_decimal(out: &mut [u8], at: usize, places: usize, n: u64) -> usize
    requires { at ≤ length out.old }
    ensures { ◌≡◌ {A = Written} (record { end = result; space = out.new }) (written at (decimal places n) out.old) }
{
    if places == 0 {
        return at;
    }
    if n < 10 {
        return put(out, at, b'0' + n as u8);
    }
    let end = put_decimal(out, at, places - 1, n / 10);
    put(out, end, b'0' + (n % 10) as u8)
}

// A label and a number after it.
pub fn put_field(out: &mut [u8], at: usize, label: &[u8], n: u64) -> usize
    requires { at ≤ length out.old }
    ensures { ◌≡◌ {A = Written} (record { end = result; space = out.new }) (written at (field label.now n) out.old) }
{
    let a = put_all(out, at, label);
    put_decimal(out, a, 20, n)
}

// Two of them, and a newline.
pub fn put_pair(out: &mut [u8], at: usize, first: &[u8], x: u64, second: &[u8], y: u64) -> usize
    requires { at ≤ length out.old }
    ensures { ◌≡◌ {A = Written} (record { end = result; space = out.new }) (written at (pair first.now x second.now y) out.old) }
{
    let a = put_field(out, at, first, x);
    let b = put_field(out, a, second, y);
    put_all(out, b, b"\n")
}

// A lent space, and how far it is written.
#[derive(Drop)]
pub struct Writer<'a> {
    out: &'a mut [u8],
    end: usize,
    pub ghost within: { end ≤ length out.now },
}

impl<'a> Writer<'a> {
    ghost use Rattle.std.specs.Prelude.{◌≡◌, [], ◌∷◌};
    ghost use Rattle.desk_job.specs.Job.{decimal, field, pair};
    ghost use Rattle.desk_job.specs.Puts.{Puts};

    // Nothing is written yet.
    pub fn new(out: &'a mut [u8]) -> Writer<'a>
        ensures same { result.out.ghost_name ≡ out.entry.ghost_name }
        ensures end { result.end ≡ 0 }
        ensures space { result.out.now ≡ out.old }
    {
        Writer { out, end: 0 }
    }

    // How many bytes are written.
    pub fn end(&self) -> usize
        ensures { result ≡ self.now.end }
    {
        self.end
    }

    pub fn put_all(&mut self, text: &[u8])
        ensures { Puts self.old text.now self.new }
    {
        self.end = put_all(self.out, self.end, text);
    }

    pub fn put_decimal(&mut self, places: usize, n: u64)
        ensures { Puts self.old (decimal places n) self.new }
    {
        self.end = put_decimal(self.out, self.end, places, n);
    }

    pub fn put_field(&mut self, label: &[u8], n: u64)
        ensures { Puts self.old (field label.now n) self.new }
    {
        self.end = put_field(self.out, self.end, label, n);
    }

    pub fn put_pair(&mut self, first: &[u8], x: u64, second: &[u8], y: u64)
        ensures { Puts self.old (pair first.now x second.now y) self.new }
    {
        self.end = put_pair(self.out, self.end, first, x, second, y);
    }
}
