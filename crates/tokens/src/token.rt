// A token as an arm sees it.
ghost use Rattle.std.specs.Prelude.{◌≤◌, length};

use context::token_text;
use tape::Head;

// A token's kind, and its text as a part of the caller's text.
#[derive(Clone, Copy)]
pub struct Token<'a> {
    pub kind: u16,
    pub text: &'a [u8],
    pub ghost short: { length text.now ≤ 262144 },
}

impl<'a> Token<'a> {
    ghost use Rattle.tokens.specs.TokenPromises.{IsTokenAt};

    // The head of a token on a checked tape, whose span lies within the text.
    pub fn at(source: &'a [u8], head: Head) -> Token<'a>
        requires text_fits { length source.now ≤ 262144 }
        requires ordered { head.start ≤ head.end }
        requires within { head.end ≤ length source.now }
        ensures { IsTokenAt source.now head result }
    {
        Token {
            kind: head.kind,
            text: token_text(source, head.start, head.end),
        }
    }
}
