//! Tokens, and where a list of them stops. Each has its place, the bytes of the text from there on; by it a refusal
//! finds its line, which is counted once.

ghost use Rattle.std.specs.Prelude.{◌≡◌};
ghost use Rattle.litmus_tokens.specs.Line as line;

/// A symbol of the test texts.
#[derive(Clone, Copy, PartialEq, Eq)]
pub enum Symbol {
    /// `=`.
    Equals,
    /// `;`.
    Semicolon,
    /// `:`.
    Colon,
    /// `[`.
    OpenSquare,
    /// `]`.
    CloseSquare,
    /// `{`.
    OpenCurly,
    /// `}`.
    CloseCurly,
    /// `|`.
    Bar,
    /// `,`.
    Comma,
    /// `$`.
    Dollar,
    /// `~`.
    Tilde,
    /// `(`.
    OpenRound,
    /// `)`.
    CloseRound,
    /// `/\`.
    And,
    /// `\/`.
    Or,
    /// `-`, of the larger set alone.
    Minus,
}

/// A token without its place.
#[derive(Clone, Copy)]
pub enum Lexeme<'a> {
    /// Decimal digits without the leading zeros, so that equal numbers have equal digits, and 0 has
    /// none; [`word`](crate::word) is their value.
    Number(&'a [u8]),
    /// Hexadecimal digits after `0x`, of the larger set alone.
    Hexadecimal(&'a [u8]),
    /// A letter or an underscore, then letters, digits and underscores; 32 bytes at most.
    Name(&'a [u8]),
    Symbol(Symbol),
}

/// A token, and how many bytes of the text stand from its first byte on.
#[derive(Clone, Copy)]
pub struct Token<'a> {
    pub remaining: usize,
    pub lexeme: Lexeme<'a>,
}

/// Why there are no further tokens. A number is how many bytes of the text stand from that place
/// on.
#[derive(Clone, Copy)]
pub enum Stop {
    /// The text is at its end.
    End,
    /// A byte that begins no token is there, or a name of more than 32 bytes.
    BadToken(usize),
    /// A comment begins there that doesn't end.
    Unclosed(usize),
}

/// The tokens of a text, and why there are no more.
#[derive(Drop)]
pub struct Tokens<'a> {
    pub items: Vec<Token<'a>>,
    pub stop: Stop,
}

/// The line of the place from which so many bytes of the text stand, from 1. The end of the text is
/// a place too, and so no bytes are left there.
pub fn line_of(text: &[u8], remaining: usize) -> usize
    ensures { result ≡ line.line_of text.now remaining }
{
    let (before, _) = text.split_at(text.len().saturating_sub(remaining));
    let mut ends = 0usize;
    for byte in before {
        if *byte == b'\n' {
            ends += 1;
        }
    }
    ends + 1
}
