// A word of a table: its kind and its content.
ghost use Rattle.std.specs.Prelude.{◌≡◌, false, MatchOption};
ghost use Rattle.rows.specs.Table.{within};
ghost use Rattle.words.specs.Format.{kind_number, kind_of, content_of};

// What a word of a table is.
#[derive(Clone, Copy, PartialEq, Eq, Debug)]
pub enum Kind {
    Actor = 1,
    Channel = 2,
    Number = 3,
    NotBefore = 4,
    Pin = 5,
    Ceiling = 6,
    End = 7,
}

impl Kind {
    // The kind of a word, if a word may have it. No `TryFrom`, since a word has a content beside its kind.
    pub fn of(word: u32) -> Option<Kind>
        ensures { MatchOption result (within 1 7 (kind_of word) ≡ false) (λ kind. kind_of word ≡ kind_number kind) }
    {
        match kind_of(word) {
            1 => Some(Kind::Actor),
            2 => Some(Kind::Channel),
            3 => Some(Kind::Number),
            4 => Some(Kind::NotBefore),
            5 => Some(Kind::Pin),
            6 => Some(Kind::Ceiling),
            7 => Some(Kind::End),
            _ => None,
        }
    }
}

// Contents are below this number: a word has 28 bits for its content.
pub const CONTENTS: u32 = 0x1000_0000;

pub fn kind_of(word: u32) -> u32
    ensures { result ≡ kind_of word }
{
    word / CONTENTS
}

pub fn content_of(word: u32) -> u32
    ensures { result ≡ content_of word }
{
    word % CONTENTS
}
