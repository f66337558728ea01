// The words that a line is made of.
ghost use Rattle.std.specs.Prelude.{◌≡◌, Some};
ghost use Rattle.tokens.specs.Messages.{name_text};
ghost use Rattle.tokens.specs.Tokens.{token_of, call_word, part_word, numeral, with_digit, same, as_number};

use std::fmt;

#[derive(Clone, Copy, Debug, PartialEq, Eq)]
pub enum Token {
    Mark,
    Ticket,
    Open,
    Actor,
    Times,
    NotBefore,
    Pin,
    Channel,
    Writes,
    Reads,
    Ceiling,
    Cut,
    Keep,
    Withdraw,
    Rows,
    // Decimal digits, of a number below 2^32.
    Number(u32),
    // Any other word.
    Other,
}

impl Token {
    // The two tokens are the same: `==`, with a contract in the words of the grammar.
    pub fn is(self, other: Token) -> bool
        ensures { result ≡ same self other }
    {
        self == other
    }

    // The number that the token is, if it is one.
    pub fn number(self) -> Option<u32>
        ensures { result ≡ as_number self }
    {
        match self {
            Token::Number(n) => Some(n),
            _ => None,
        }
    }
}

// The token of a word.
impl From<&[u8]> for Token {
    ghost from_gives = { λ word r. r ≡ token_of word.now };

    fn from(word: &[u8]) -> Token {
        match number_of(word) {
            Some(n) => Token::Number(n),
            None => keyword_of(word),
        }
    }
}

// A token as a line has it.
impl fmt::Display for Token {
    ghost output = { λ t. Some (name_text t) };

    fn fmt<W: fmt::Write>(&self, f: &mut fmt::Formatter<W>) -> fmt::Result {
        f.write_str(match self {
            Token::Mark => "mark",
            Token::Ticket => "ticket",
            Token::Open => "open",
            Token::Actor => "actor",
            Token::Times => "times",
            Token::NotBefore => "not-before",
            Token::Pin => "pin",
            Token::Channel => "channel",
            Token::Writes => "writes",
            Token::Reads => "reads",
            Token::Ceiling => "ceiling",
            Token::Cut => "cut",
            Token::Keep => "keep",
            Token::Withdraw => "withdraw",
            Token::Rows => "rows",
            Token::Number(_) => "a number",
            Token::Other => "a word",
        })
    }
}

// The keyword that a word is, a call's first. By its bytes, since words are read from bytes that may be no text.
fn keyword_of(word: &[u8]) -> Token
    ensures { result ≡ call_word word.now }
{
    match word {
        b"mark" => Token::Mark,
        b"ticket" => Token::Ticket,
        b"open" => Token::Open,
        b"actor" => Token::Actor,
        b"channel" => Token::Channel,
        b"cut" => Token::Cut,
        b"keep" => Token::Keep,
        b"withdraw" => Token::Withdraw,
        b"rows" => Token::Rows,
        _ => part_word_of(word),
    }
}

// The keyword of a part of a row: apart from those of calls, as in the definitions.
fn part_word_of(word: &[u8]) -> Token
    ensures { result ≡ part_word word.now }
{
    match word {
        b"times" => Token::Times,
        b"not-before" => Token::NotBefore,
        b"pin" => Token::Pin,
        b"writes" => Token::Writes,
        b"reads" => Token::Reads,
        b"ceiling" => Token::Ceiling,
        _ => Token::Other,
    }
}

// The number that a word of digits stands for, if it is below 2^32. By a fold, which stops at the first byte that is no
// digit or makes the number too large: the library's parse takes a sign too, and wants text.
fn number_of(word: &[u8]) -> Option<u32>
    ensures { result ≡ numeral word.now }
{
    if word.is_empty() {
        return None;
    }
    word.iter()
        .try_fold(0, |number, byte| with_digit(number, *byte))
}

// The number with one more digit, if that is a digit and the number is below 2^32.
fn with_digit(n: u32, b: u8) -> Option<u32>
    ensures { result ≡ with_digit n b }
{
    if b < b'0' || b > b'9' {
        return None;
    }
    let more = u64::from(n) * 10 + u64::from(b - b'0');
    if more > 4_294_967_295 {
        return None;
    }
    Some(more as u32)
}
