// The keywords of the source (head of format_node.rs): the list, the walk over it, and the test of a word.
#![tactic(auto)]

mod index;
pub mod table;

ghost use Rattle.std.specs.Prelude.{◌≡◌, [], ◌≤◌, get_or, length};
ghost use Rattle.basics.specs.Case.{to_uppercase};
ghost use Rattle.keywords.specs.Words.{capitals, same, word_of, words};
ghost use Rattle.keywords.specs.Index.{Stands};
ghost use Rattle.keywords.specs.Walk.{capital_letters, first_equal};

use index::{Entry, candidate};
use table::table;

// An entry has at most so many letters.
pub(crate) const LONGEST: usize = 12;

// The three sorts of word; a listed one with its place in the list.
#[derive(Clone, Copy, PartialEq, Eq, Debug)]
pub enum Word {
    Plain,
    Value(usize),
    Keyword(usize),
}

// Whether the word, in any case, is the given one, which is in capitals.
pub fn is_word(word: &[u8], caps: &[u8]) -> bool
    ensures { result ≡ same (capitals word.now) caps.now }
{
    word.len() == caps.len()
        && word
            .iter()
            .zip(caps)
            .all(|(b, c)| b.to_ascii_uppercase() == *c)
}

// A word's letters in upper case, as many as an entry can have, and zeros after them, in an array since there is no heap: worked out once, before the walk.
// By a loop: with copy_from_slice the library for C would ask its user for memcpy.
fn capitals_of(word: &[u8]) -> [u8; LONGEST]
    ensures { result ≡ capital_letters word.now }
{
    let n = word.len().min(LONGEST);
    let mut letters = [0u8; LONGEST];
    for (i, letter) in letters[..n].iter_mut().enumerate() {
        *letter = word[i].to_ascii_uppercase();
    }
    letters
}

// Whether the entry is equal to the word.
fn is_entry(entry: Entry, word: &[u8]) -> bool
    requires { Stands entry }
    ensures { result ≡ same word.now (get_or words entry.place []) }
{
    let table = table();
    let at = usize::from(entry.at);
    let start = at + 1;
    word == &table[start..start + usize::from(table[at])]
}

// The walk: where the first entry stands that is equal to any length and bytes, to the first bytes as many as the length says.
pub fn walk(length: usize, bytes: &[u8]) -> Option<usize>
    ensures { result ≡ first_equal length bytes.now words }
{
    let word = bytes.get(..length)?;
    let entry = candidate(word)?;
    is_entry(entry, word).then_some(usize::from(entry.place))
}

// What `walk` finds. It looks first at the entry, which may be any of the list.
fn walk_from(entry: Entry, size: usize, bytes: &[u8]) -> Option<usize>
    requires { Stands entry }
    ensures { result ≡ first_equal size bytes.now words }
{
    if is_entry(entry, bytes.get(..size)?) {
        return Some(usize::from(entry.place));
    }
    walk(size, bytes)
}

// The sort of a word for which there is a candidate. NULL, TRUE and FALSE stand beside each other in the list. On its own, so that `word_of`, which has no
// candidate for most names, is inlined.
#[inline(never)]
fn word_at(entry: Entry, word: &[u8]) -> Word
    requires { Stands entry }
    ensures { result ≡ word_of word.now }
{
    match walk_from(entry, word.len(), &capitals_of(word)) {
        None => Word::Plain,
        Some(i) => match i {
            97..=99 => Word::Value(i),
            _ => Word::Keyword(i),
        },
    }
}

// The sort of a word.
pub fn word_of(word: &[u8]) -> Word
    ensures { result ≡ word_of word.now }
{
    match candidate(word) {
        None => Word::Plain,
        Some(entry) => word_at(entry, word),
    }
}
