// Well-formed UTF-8: the first ill-formed byte, the bounds of characters, and trailing white space.
#![tactic(auto)]

ghost use Rattle.std.specs.Prelude.{◌≡◌, not, ◌≤◌, length, take, get_or};
ghost use Rattle.utf8.specs.Table.{is_ascii};
ghost use Rattle.utf8.specs.Pieces.{pieces, first_ill_formed, is_trailing};
ghost use Rattle.utf8.specs.Trimming.{trimmed_length, is_white_byte};
ghost use Rattle.utf8.specs.Steps.{white_pair, white_last, white_triple, end_white, unless_zero};

// A second, third or fourth byte of a character.
#[tactic(auto, using(std::proofs::lemmas::Bool::Decides::nat_tests), unfolding(crate::specs::Pieces::is_trailing, crate::specs::Table::holds))]
fn is_trailing(b: u8) -> bool
    ensures { result ≡ is_trailing b }
{
    matches!(b, 0x80..=0xBF)
}

// Whether every byte is below 128: the highest is. It has no early exit, so that the machine takes many bytes at a time.
pub fn is_ascii(text: &[u8]) -> bool
    ensures { result ≡ is_ascii text.now }
{
    text.iter().fold(0, |highest: u8, b| highest.max(*b)) < 128
}

// The place of the first byte that is not part of a well-formed character.
#[tactic(auto, using(crate::proofs::Library::well))]
pub fn first_ill_formed(text: &[u8]) -> Option<usize>
    ensures { result ≡ first_ill_formed 0 text.now }
{
    match std::str::from_utf8(text) {
        Ok(_) => None,
        Err(e) => Some(e.valid_up_to()),
    }
}

// Whether a place of a well-formed text lies between two characters, or at an end.
#[tactic(auto, using(crate::proofs::Places::not_trailing_past))]
pub fn is_boundary(text: &[u8], place: usize) -> bool
    ensures { result ≡ not (is_trailing (get_or text.now place 0)) }
{
    !text.get(place).is_some_and(|b| is_trailing(*b))
}

// 9 to 13 and 32
#[tactic(auto, using(std::proofs::lemmas::Bool::Decides::nat_tests), unfolding(crate::specs::Trimming::is_white_byte))]
pub fn is_white_byte(b: u8) -> bool
    ensures { result ≡ is_white_byte b }
{
    matches!(b, 32 | 9..=13)
}

// U+0085 and U+00A0
#[tactic(auto, using(std::proofs::lemmas::Bool::Decides::nat_tests), unfolding(crate::specs::Steps::white_pair))]
fn is_white_pair(a: u8, b: u8) -> bool
    ensures { result ≡ white_pair a b }
{
    a == 0xC2 && matches!(b, 0x85 | 0xA0)
}

// After E2 80: U+2000 to U+200A, U+2028, U+2029 and U+202F
#[tactic(auto, using(std::proofs::lemmas::Bool::Decides::nat_tests), unfolding(crate::specs::Steps::white_last, crate::specs::Table::holds))]
fn is_white_last(c: u8) -> bool
    ensures { result ≡ white_last c }
{
    matches!(c, 0x80..=0x8A | 0xA8 | 0xA9 | 0xAF)
}

// These, and U+205F, U+1680 and U+3000
#[tactic(auto, using(std::proofs::lemmas::Bool::Decides::nat_tests), unfolding(crate::specs::Steps::white_triple))]
fn is_white_triple(a: u8, b: u8, c: u8) -> bool
    ensures { result ≡ white_triple a b c }
{
    match (a, b) {
        (0xE2, 0x80) => is_white_last(c),
        (0xE2, 0x81) => c == 0x9F,
        (0xE1, 0x9A) | (0xE3, 0x80) => c == 0x80,
        _ => false,
    }
}

// The length of the white-space character that ends just before n, if one does.
fn white_before(text: &[u8], n: usize) -> Option<usize>
    requires { n ≤ length text.now }
    ensures { result ≡ unless_zero (end_white (pieces (take n text.now))) }
{
    match &text[..n] {
        [.., c] if is_white_byte(*c) => Some(1),
        [.., b, c] if is_white_pair(*b, *c) => Some(2),
        [.., a, b, c] if is_white_triple(*a, *b, *c) => Some(3),
        _ => None,
    }
}

// The length of the text without the white-space characters at its end. The loop's steps have different lengths. On its
// own, so that `trimmed_length`, which is small, can be inlined.
#[inline(never)]
pub fn trimmed_from_end(text: &[u8]) -> usize
    ensures { result ≡ trimmed_length text.now }
{
    let mut n = text.len();
    while let Some(k) = white_before(text, n) {
        n -= k;
    }
    n
}

// The length of the text without the white-space characters at its end, as above. Most texts end in a byte from 33 to 127.
#[inline(always)]
pub fn trimmed_length(text: &[u8]) -> usize
    ensures { result ≡ trimmed_length text.now }
{
    match text.last() {
        Some(33..=127) => text.len(),
        _ => trimmed_from_end(text),
    }
}
