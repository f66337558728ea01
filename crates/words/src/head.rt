// The head of a record, and the record that follows from it.
ghost use Rattle.std.specs.Prelude.{◌≡◌, suc, ◌<◌, ◌≤◌, length};
ghost use Rattle.std.specs.List.{between};
ghost use Rattle.words.specs.Parts.{ReadsPart};
ghost use Rattle.words.specs.Records.{actor_at, channel_at, end_at, writer_in, reader_in, writes_in, reads_in};

use crate::fault::WordFault;
use crate::place::Place;
use crate::record::Record;
use crate::word::Kind;

// Where a head stands, and its content.
#[derive(Clone, Copy)]
pub(crate) struct Head<'a> {
    pub(crate) words: &'a [u32],
    pub(crate) place: usize,
    pub(crate) content: u32,
    ghost inside: { place < length words.now },
}

impl<'a> Head<'a> {
    // The record of an actor. None may stand after a channel.
    pub(crate) fn actor(self, after_channel: bool) -> Result<Record<'a>, WordFault>
        ensures { ReadsPart result (actor_at after_channel self.entry.words.now self.entry.place self.entry.content) }
    {
        if after_channel || self.content > 255 {
            return Err(WordFault::Misplaced(self.place));
        }
        let numbers_end = self.next().past_numbers(self.content as usize)?;
        let end = numbers_end.past(Kind::NotBefore).past(Kind::Pin);
        Ok(Record::Actor(&self.words[self.place..end.index]))
    }

    // The record of a channel.
    pub(crate) fn channel(self) -> Result<Record<'a>, WordFault>
        ensures { ReadsPart result (channel_at self.entry.words.now self.entry.place self.entry.content) }
    {
        if self.content > 0xff_ffff {
            return Err(WordFault::Misplaced(self.place));
        }
        let ends = Ends::of(self.content);
        let numbers_end = self.next().past_numbers(ends.writes + ends.reads)?;
        let end = numbers_end.past(Kind::Ceiling);
        Ok(Record::Channel(&self.words[self.place..end.index]))
    }

    // The end of the table.
    pub(crate) fn table_end(self) -> Result<Record<'a>, WordFault>
        ensures { ReadsPart result (end_at self.entry.words.now self.entry.place self.entry.content) }
    {
        if self.content as usize != self.place {
            return Err(WordFault::WrongEnd(self.place));
        }
        let end = self.next().index;
        if self.words.len() != end {
            return Err(WordFault::WrongEnd(end));
        }
        Ok(Record::End(&self.words[self.place..end]))
    }

    // The place after the head.
    fn next(self) -> Place<'a>
        ensures same { result.words.now ≡ self.entry.words.now }
        ensures value { result.index ≡ suc self.entry.place }
    {
        Place {
            words: self.words,
            index: self.place + 1,
        }
    }
}

// What the head of a channel says of its ends: their actors, and how many rates each has.
#[derive(Clone, Copy)]
pub(crate) struct Ends {
    pub(crate) writer: usize,
    pub(crate) reader: usize,
    pub(crate) writes: usize,
    pub(crate) reads: usize,
}

impl Ends {
    // By name and no `From`: of the contents of three kinds of head, only a channel's has these fields.
    pub(crate) fn of(content: u32) -> Ends
        ensures writer { result.writer ≡ writer_in content }
        ensures reader { result.reader ≡ reader_in content }
        ensures writes { result.writes ≡ writes_in content }
        ensures reads { result.reads ≡ reads_in content }
    {
        Ends {
            writer: (content % 0x100) as usize,
            reader: (content / 0x100 % 0x100) as usize,
            writes: (content / 0x1_0000 % 16) as usize,
            reads: (content / 0x10_0000 % 16) as usize,
        }
    }
}
