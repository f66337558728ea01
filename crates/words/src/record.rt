// The records of a table of words.
ghost use Rattle.std.specs.Prelude.{◌≡◌, ◌<◌, ◌≤◌, length, slice_range};
ghost use Rattle.words.specs.Parts.{ReadsPart};
ghost use Rattle.words.specs.Records.{record_at};

use crate::fault::WordFault;
use crate::head::Head;
use crate::place::wrong_kind;
use crate::word::{Kind, content_of};

// A record: its part of the caller's words, from its head on.
#[derive(Clone, Copy)]
pub enum Record<'a> {
    Actor(&'a [u32]),
    Channel(&'a [u32]),
    End(&'a [u32]),
}

impl<'a> Record<'a> {
    // The record with its head at this place. No actor may stand after a channel.
    pub fn read(words: &'a [u32], head: usize, after_channel: bool) -> Result<Record<'a>, WordFault>
        ensures { ReadsPart result (record_at after_channel words.now head) }
    {
        let word = *words.get(head).ok_or(WordFault::Missing(head))?;
        let found = Head {
            words,
            place: head,
            content: content_of(word),
        };
        match Kind::of(word) {
            Some(Kind::Actor) => found.actor(after_channel),
            Some(Kind::Channel) => found.channel(),
            Some(Kind::End) => found.table_end(),
            _ => Err(wrong_kind(head, word)),
        }
    }
}
