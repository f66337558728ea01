// Why words are no table, and why a load is refused.
ghost use Rattle.std.specs.Prelude.{◌≡◌};
ghost use Rattle.words.specs.declared.fault.LoadFault.TheVariants.{Word};
ghost use Rattle.words.specs.Faults.{shown_word, shown_load};

use rows::fault::{Fault, Refusal};

// What is wrong with a table of words, each case with the place of the first offending word.
#[derive(Clone, Copy, PartialEq, Eq, Debug)]
pub enum WordFault {
    // The words run out before the table's end: the word at this place is missing.
    Missing(usize),
    // No word has this kind.
    UnknownKind(usize),
    // A word of this kind, or with these bits, may not stand here.
    Misplaced(usize),
    // The end counts another number of words, or this word comes after it.
    WrongEnd(usize),
}

// By a match: cases that hold a place have no numbers of their own.
impl Refusal for WordFault {
    ghost number_and_place = { shown_word };

    fn number(&self) -> u32 {
        match self {
            WordFault::Missing(_) => 30,
            WordFault::UnknownKind(_) => 31,
            WordFault::Misplaced(_) => 32,
            WordFault::WrongEnd(_) => 33,
        }
    }

    // The place of the first offending word.
    fn place(&self) -> usize {
        match self {
            WordFault::Missing(place)
            | WordFault::UnknownKind(place)
            | WordFault::Misplaced(place)
            | WordFault::WrongEnd(place) => *place,
        }
    }
}

// Why words are not loaded.
#[derive(Clone, Copy, PartialEq, Eq, Debug)]
pub enum LoadFault {
    // A load is not shown a ticket that is accepted. Loading the rows of a table asks for none.
    TicketRefused,
    // The table has rows.
    HasRows,
    // The words are no table.
    Word(WordFault),
    // The row of the record with its head at this place is refused.
    Row { head: usize, fault: Fault },
}

// By a match, as above.
impl Refusal for LoadFault {
    ghost number_and_place = { shown_load };

    fn number(&self) -> u32 {
        match self {
            LoadFault::TicketRefused => 2,
            LoadFault::HasRows => 28,
            LoadFault::Word(fault) => fault.number(),
            LoadFault::Row { fault, .. } => fault.number(),
        }
    }

    // The place of the first offending word, or of the head of the refused row.
    fn place(&self) -> usize {
        match self {
            LoadFault::TicketRefused | LoadFault::HasRows => 0,
            LoadFault::Word(fault) => fault.place(),
            LoadFault::Row { head, .. } => *head,
        }
    }
}

impl From<WordFault> for LoadFault {
    ghost from_gives = { λ fault f. f ≡ Word fault };

    fn from(fault: WordFault) -> Self {
        Self::Word(fault)
    }
}
