// A place in a table of words, and what stands from there on.
ghost use Rattle.std.specs.Prelude.{◌≡◌, ◌+◌, ◌<◌, ◌≤◌, length, Some, None, MatchResult};
ghost use Rattle.words.specs.Format.{kind_number};
ghost use Rattle.words.specs.Records.{given, past, numbers_fault, wrong_kind};

use crate::fault::WordFault;
use crate::word::{Kind, content_of};

#[derive(Clone, Copy)]
pub(crate) struct Place<'a> {
    pub(crate) words: &'a [u32],
    pub(crate) index: usize,
    ghost inside: { index ≤ length words.now },
}

impl<'a> Place<'a> {
    // The content of the word here, if it is of this kind.
    pub(crate) fn given(self, kind: Kind) -> Option<u32>
        ensures { result ≡ given self.entry.words.now self.entry.index (kind_number kind) }
    {
        let word = *self.words.get(self.index)?;
        if Kind::of(word) == Some(kind) {
            Some(content_of(word))
        } else {
            None
        }
    }

    // The place after a word of this kind, if it stands here.
    pub(crate) fn past(self, kind: Kind) -> Place<'a>
        ensures same { result.words.now ≡ self.entry.words.now }
        ensures value { result.index ≡ past self.entry.words.now self.entry.index (kind_number kind) }
        ensures on { self.entry.index ≤ result.index }
    {
        match self.given(kind) {
            Some(_) => Place {
                words: self.words,
                index: self.index + 1,
            },
            None => self,
        }
    }

    // The place after so many numbers, or what is wrong with the first word that is none.
    pub(crate) fn past_numbers(self, count: usize) -> Result<Place<'a>, WordFault>
        requires { count < 256 }
        ensures { MatchResult result
            (λ p. (numbers_fault self.entry.words.now self.entry.index count ≡ None) × ((p.words.now ≡ self.entry.words.now) × (p.index ≡ self.entry.index + count)))
            (λ f. numbers_fault self.entry.words.now self.entry.index count ≡ Some f) }
    {
        let end = self.index + count;
        // By place, which a fault names.
        for index in self.index..end {
            let word = *self.words.get(index).ok_or(WordFault::Missing(index))?;
            if Kind::of(word) != Some(Kind::Number) {
                return Err(wrong_kind(index, word));
            }
        }
        Ok(Place {
            words: self.words,
            index: end,
        })
    }
}

// Why a word may not stand at this place: it has another kind than is wanted there, or one that no word has.
pub(crate) fn wrong_kind(place: usize, word: u32) -> WordFault
    ensures { result ≡ wrong_kind place word }
{
    match Kind::of(word) {
        Some(_) => WordFault::Misplaced(place),
        None => WordFault::UnknownKind(place),
    }
}
