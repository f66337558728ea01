// Rows saved as a table of words.
ghost use Rattle.std.specs.Prelude.{◌≡◌, ℕ, ◌+◌, ◌<◌, ◌≤◌, true, List, map, length, IfOk, slice_index_or};
ghost use Rattle.std.specs.List.{flat_map};
ghost use Rattle.rows.specs.Steps.{Does};
ghost use Rattle.std.specs.List.{list_all};
ghost use Rattle.rows.specs.Values.{actor_row, channel_row};
ghost use Rattle.table.specs.Tables.{table_of};
ghost use Rattle.words.specs.Fitting.{small, small_if, ActorFits, ChannelFits};
ghost use Rattle.words.specs.Format.{kind_number, word_of, option_words, ends_content, actor_words, channel_words, table_words};
ghost use Rattle.word_save.specs.Saves.{written, saving};

use crate::fault::SaveFault;
use rows::row::{Actor, Channel};
use std::alloc::{AllocError, Global};
use table::storage::Rows;
use words::word::{CONTENTS, Kind};

// How many words the rows take, the end included.
fn size(rows: &Rows) -> usize
    ensures { result ≡ length (table_words (table_of rows.now)) }
{
    size_of(rows.actors()) + size_of(rows.channels()) + 1
}

// Writes the rows as a table of words, which takes the first of the words given.
pub fn save(rows: &Rows, out: &mut [u32]) -> Result<usize, SaveFault>
    ensures { Does (saving (table_of rows.now)) out.old out.new result }
{
    let size = size(rows);
    if out.len() < size {
        return Err(SaveFault::SpaceShort);
    }
    write_table(rows, &mut out[..size]);
    Ok(size)
}

// The rows as a table of words, in memory of its own.
pub fn saved(heap: Global, rows: &Rows) -> Result<Vec<u32>, AllocError>
    ensures { IfOk result (λ words. words.items ≡ table_words (table_of rows.now)) }
{
    let mut words = Vec::new(heap);
    words.resize(size(rows), 0)?;
    write_table(rows, &mut words);
    Ok(words)
}

// Writes the rows as a table of words over as many words.
fn write_table(rows: &Rows, out: &mut [u32])
    requires { length out.old ≡ length (table_words (table_of rows.now)) }
    ensures { out.new ≡ table_words (table_of rows.now) }
{
    let channels_from = write_rows(rows.actors(), out);
    let end = channels_from + write_rows(rows.channels(), &mut out[channels_from..]);
    out[end] = word_of(Kind::End, end as u32);
}

// A row that is written as the words of a record.
trait Encode {
    ghost words: { Self → List ℕ };

    ghost fits: { Self → Type 0 };

    // How many words the record has.
    fn size(&self) -> usize
        ensures { result ≡ length (words self.now) };

    // Writes the words of the record over the first of the words given, and answers how many they are.
    fn encode(&self, out: &mut [u32]) -> usize
        requires { (fits self.now) × (length (words self.now) ≤ length out.old) }
        ensures size { result ≡ length (words self.now) }
        ensures out { out.new ≡ written 0 (words self.now) out.old };
}

impl Encode for Actor {
    ghost words = { λ a. actor_words (actor_row a) };

    ghost fits = { λ a. ActorFits (actor_row a) };

    fn size(&self) -> usize {
        1 + self.times.as_slice().len()
            + option_size(self.not_before)
            + option_size(self.placement.pin())
    }

    fn encode(&self, out: &mut [u32]) -> usize {
        let times = self.times.as_slice();
        out[0] = word_of(Kind::Actor, times.len() as u32);
        let times_end = write_numbers(out, 1, times);
        let pin_from = write_option(out, times_end, Kind::NotBefore, self.not_before);
        write_option(out, pin_from, Kind::Pin, self.placement.pin())
    }
}

impl Encode for Channel {
    ghost words = { λ c. channel_words (channel_row c) };

    ghost fits = { λ c. ChannelFits (channel_row c) };

    fn size(&self) -> usize {
        1 + self.writes.as_slice().len() + self.reads.as_slice().len() + option_size(self.ceiling)
    }

    fn encode(&self, out: &mut [u32]) -> usize {
        out[0] = word_of(Kind::Channel, ends_content(self));
        let reads_from = write_numbers(out, 1, self.writes.as_slice());
        let ceiling_from = write_numbers(out, reads_from, self.reads.as_slice());
        write_option(out, ceiling_from, Kind::Ceiling, self.ceiling)
    }
}

// The content of a channel's head.
fn ends_content(channel: &Channel) -> u32
    requires { ChannelFits (channel_row channel.now) }
    ensures value { let c = channel_row channel.now in result ≡ ends_content c.writer c.reader (length c.writes) (length c.reads) }
    ensures small { result < 268435456 }
{
    let writes = channel.writes.as_slice().len();
    let reads = channel.reads.as_slice().len();
    (channel.writer + 0x100 * channel.reader + 0x1_0000 * writes + 0x10_0000 * reads) as u32
}

// How many words the rows have.
fn size_of<T: Encode>(rows: &[T]) -> usize
    requires { length (flat_map T.Encode.words rows.now) < 268435456 }
    ensures { result ≡ length (flat_map T.Encode.words rows.now) }
{
    rows.iter().map(|row| row.size()).sum()
}

// Writes the words of the rows over the first of the words given, and answers how many they are.
fn write_rows<T: Encode>(rows: &[T], out: &mut [u32]) -> usize
    requires fit { (i : ℕ) (d : T) → i < length rows.now → T.Encode.fits (slice_index_or rows.now i d) }
    requires room { length (flat_map T.Encode.words rows.now) ≤ length out.old }
    ensures size { result ≡ length (flat_map T.Encode.words rows.now) }
    ensures out { out.new ≡ written 0 (flat_map T.Encode.words rows.now) out.old }
{
    // By place: of a slice that moves along, a proof knows only the part that is left.
    let mut place = 0;
    for row in rows {
        place += row.encode(&mut out[place..]);
    }
    place
}

fn option_size(number: Option<u32>) -> usize
    ensures size { (kind : ℕ) → result ≡ length (option_words kind number) }
    ensures few { result ≤ 1 }
{
    usize::from(number.is_some())
}

// Writes a word from this place on, where there is a number for it, and answers the place after it.
fn write_option(out: &mut [u32], place: usize, kind: Kind, number: Option<u32>) -> usize
    requires { (small_if number ≡ true) × (place + length (option_words (kind_number kind) number) ≤ length out.old) }
    ensures after { result ≡ place + length (option_words (kind_number kind) number) }
    ensures out { out.new ≡ written place (option_words (kind_number kind) number) out.old }
{
    match number {
        Some(n) => {
            out[place] = word_of(kind, n);
            place + 1
        }
        None => place,
    }
}

// Writes a word for each number from this place on, and answers the place after them.
fn write_numbers(out: &mut [u32], place: usize, numbers: &[u32]) -> usize
    requires { (list_all small numbers.now ≡ true) × (place + length numbers.now ≤ length out.old) }
    ensures after { result ≡ place + length numbers.now }
    ensures out { out.new ≡ written place (map (word_of 3) numbers.now) out.old }
{
    // By place in the record: cut into a part for each list, short records take more time.
    let mut next = place;
    for n in numbers {
        out[next] = word_of(Kind::Number, *n);
        next += 1;
    }
    next
}

// A word of this kind and content.
fn word_of(kind: Kind, content: u32) -> u32
    requires { content < 268435456 }
    ensures { result ≡ word_of (kind_number kind) content }
{
    kind as u32 * CONTENTS + content
}
