// Bytes written into a lent part, as far as it goes, and what is asked of a text before it is written. `out` and a place in it are two parameters:
// the place is that of the context, which counts on past the end of `out`.
ghost use Rattle.std.specs.Prelude.{◌≡◌, map, min, ◌+◌, ◌^◌, ◌≤◌, ◌<◌, length, replicate, take};
ghost use Rattle.utf8.specs.Trimming.{trimmed_after, trimmed_length};
ghost use Rattle.context.specs.Cells.{count, to_case};
ghost use Rattle.context.specs.Splice.{splice};
ghost use Rattle.context.specs.Context.{ends_in_newline};

use utf8::trimmed_length;

#[tactic(auto, unfolding(basics::specs::Case::to_uppercase, basics::specs::Case::to_lowercase))]
pub(crate) fn to_case(uppercase: bool, b: u8) -> u8
    ensures { result ≡ to_case uppercase b }
{
    if uppercase {
        b.to_ascii_uppercase()
    } else {
        b.to_ascii_lowercase()
    }
}

// n times the byte b, from the part's start. Most often it is one blank: with the block fill alone numbers take 1.6 % more.
pub(crate) fn fill(out: &mut [u8], n: usize, b: u8)
    ensures { out.new ≡ splice 0 (replicate n b) out.old }
{
    if n == 1 {
        if 0 < out.len() {
            out[0] = b;
        }
        return;
    }
    let end = n.min(out.len());
    out[..end].fill(b);
}

// The text, from the part's start. By a loop, which takes many bytes at a time: with copy_from_slice the library for C would ask its user for memmove.
pub fn copy(out: &mut [u8], text: &[u8])
    ensures { out.new ≡ splice 0 text.now out.old }
{
    let end = text.len().min(out.len());
    for (i, b) in out[..end].iter_mut().enumerate() {
        *b = text[i];
    }
}

// The first N bytes of the text, all read before one is written: the compiler makes one move of them. Copied from one part to the other they would be
// moved one by one, since the parts might overlap.
fn copy_first<const N: usize>(out: &mut [u8], text: &[u8])
    requires { (N ≤ length out.old) × (N ≤ length text.now) }
    ensures { out.new ≡ splice 0 (take N text.now) out.old }
{
    let mut first = [0u8; N];
    first.copy_from_slice(&text[..N]);
    out[..N].copy_from_slice(&first);
}

// `copy` of a text of N to twice N bytes that fits: its first N bytes and its last, which may overlap.
fn copy_ends<const N: usize>(out: &mut [u8], text: &[u8])
    requires { (N ≤ length text.now) × (length text.now ≤ N + N) × (length text.now ≤ length out.old) }
    ensures { out.new ≡ splice 0 text.now out.old }
{
    let last = text.len() - N;
    copy_first::<N>(out, text);
    copy_first::<N>(&mut out[last..], &text[last..]);
}

// `copy` of a short text that fits.
fn copy_short(out: &mut [u8], text: &[u8])
    requires { (length text.now ≤ 16) × (length text.now ≤ length out.old) }
    ensures { out.new ≡ splice 0 text.now out.old }
{
    match text.len() {
        0..=3 => copy(out, text),
        4..=8 => copy_ends::<4>(out, text),
        _ => copy_ends::<8>(out, text),
    }
}

// The text in upper or lower case. A loop of its own, so that the plain one can be a block copy; that and make_ascii_uppercase after it take 6 % more for
// keywords.
pub(crate) fn copy_in_case(out: &mut [u8], uppercase: bool, text: &[u8])
    ensures { out.new ≡ splice 0 (map (to_case uppercase) text.now) out.old }
{
    let end = text.len().min(out.len());
    for (i, b) in out[..end].iter_mut().enumerate() {
        *b = to_case(uppercase, text[i]);
    }
}

// The same from offset `at` on: the part that begins there is lent, by a test, since of `get_mut` it is not known what the part leaves in `out`. Three
// functions, each with the test: one that lends the part, by split_at_mut, takes 31 % more for group-by-63.
pub(crate) fn fill_at(out: &mut [u8], at: usize, n: usize, b: u8)
    ensures { out.new ≡ splice at (replicate n b) out.old }
{
    if at < out.len() {
        fill(&mut out[at..], n, b);
    }
}

pub(crate) fn copy_at(out: &mut [u8], at: usize, text: &[u8])
    ensures { out.new ≡ splice at text.now out.old }
{
    if at < out.len() {
        copy(&mut out[at..], text);
    }
}

pub(crate) fn copy_in_case_at(out: &mut [u8], at: usize, uppercase: bool, text: &[u8])
    ensures { out.new ≡ splice at (map (to_case uppercase) text.now) out.old }
{
    if at < out.len() {
        copy_in_case(&mut out[at..], uppercase, text);
    }
}

// So many blanks and then the text, from offset `at` on; and how long the text is once its trailing white space is dropped. Numbers go in and out, and
// no struct of them: a caller that has the context in registers keeps it there. So each function that adds asks that the sum does not wrap.
pub fn put(out: &mut [u8], at: usize, blanks: usize, text: &[u8]) -> usize
    requires { at + blanks < 2 ^ 64 }
    ensures { (result ≡ trimmed_length text.now) × (out.new ≡ splice (at + blanks) text.now (splice at (replicate blanks 32) out.old)) }
{
    fill_at(out, at, blanks, 32);
    copy_at(out, at + blanks, text);
    trimmed_length(text)
}

// `put` of at most one blank and 16 bytes, for which there is room.
pub fn put_short(out: &mut [u8], at: usize, blanks: usize, text: &[u8]) -> usize
    requires { (blanks ≤ 1) × (length text.now ≤ 16) × (at + blanks + length text.now ≤ length out.old) }
    ensures { (result ≡ trimmed_length text.now) × (out.new ≡ splice (at + blanks) text.now (splice at (replicate blanks 32) out.old)) }
{
    fill_at(out, at, blanks, 32);
    let from = at + blanks;
    copy_short(&mut out[from..], text);
    trimmed_length(text)
}

// `put` in upper or lower case: only the copy differs. With a trait of both copies and its law, `put`, this and what they call are 43 lines in place of 30.
pub fn put_in_case(out: &mut [u8], at: usize, blanks: usize, uppercase: bool, text: &[u8]) -> usize
    requires { at + blanks < 2 ^ 64 }
    ensures { (result ≡ trimmed_length text.now) × (out.new ≡ splice (at + blanks) (map (to_case uppercase) text.now) (splice at (replicate blanks 32) out.old)) }
{
    fill_at(out, at, blanks, 32);
    copy_in_case_at(out, at + blanks, uppercase, text);
    trimmed_length(text)
}

pub(crate) fn trimmed_after(n: usize, k: usize, j: usize) -> usize
    requires { n + j < 2 ^ 64 }
    ensures { result ≡ trimmed_after n k j }
{
    if j == 0 { k } else { n + j }
}

// By a loop, which takes many bytes at a time: `filter` and `count` take one, and white space that is read over and over costs 64 % more.
pub fn count_newlines(text: &[u8]) -> usize
    ensures { result ≡ count 10 text.now }
{
    let mut n = 0;
    for b in text {
        if *b == b'\n' {
            n += 1;
        }
    }
    n
}

pub(crate) fn ends_in_newline(text: &[u8]) -> bool
    ensures { result ≡ ends_in_newline text.now }
{
    text.last() == Some(&b'\n')
}
