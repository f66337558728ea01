// Rows loaded from a table of words.
ghost use Rattle.std.specs.Prelude.{◌≡◌, suc, ◌+◌, ◌<◌, ◌≤◌, map, length, take, Ok, Err, MatchResult};
ghost use Rattle.rows.specs.Steps.{Does};
ghost use Rattle.rows.specs.Table.{add_actor, add_channel};
ghost use Rattle.table.specs.Tables.{table_of};
ghost use Rattle.words.specs.Format.{content_of};
ghost use Rattle.words.specs.Records.{head_content, actor_of, channel_of, writes_in, reads_in};
ghost use Rattle.words.specs.Loads.{loading, rows_from, is_empty, has_channels};

use crate::fault::LoadFault;
use crate::head::Ends;
use crate::place::Place;
use crate::record::Record;
use crate::word::{Kind, content_of};
use rows::fault::Fault;
use rows::row::{NewActor, NewChannel, Placement};
use table::storage::Rows;

// Adds the rows of a whole table of words to a table without rows, or leaves that as it is.
pub fn load(rows: &mut Rows, words: &[u32]) -> Result<usize, LoadFault>
    ensures { Does (loading words.now) (table_of rows.old) (table_of rows.new) result }
{
    if !is_empty(rows) {
        return Err(LoadFault::HasRows);
    }
    if let Err(fault) = add_records(rows, words) {
        rows.clear();
        return Err(fault);
    }
    Ok(words.len())
}

fn is_empty(rows: &Rows) -> bool
    ensures { result ≡ is_empty (table_of rows.now) }
{
    rows.actors().is_empty() && rows.channels().is_empty()
}

fn has_channels(rows: &Rows) -> bool
    ensures { result ≡ has_channels (table_of rows.now) }
{
    !rows.channels().is_empty()
}

// Adds the row of each record, until the table's end or a fault.
fn add_records(rows: &mut Rows, words: &[u32]) -> Result<(), LoadFault>
    ensures { MatchResult result
        (λ _. rows_from (length words.now) words.now 0 (table_of rows.old) ≡ Ok (table_of rows.new))
        (λ f. rows_from (length words.now) words.now 0 (table_of rows.old) ≡ Err f) }
{
    let mut head = 0;
    loop {
        let (part, added) = match Record::read(words, head, has_channels(rows))? {
            Record::Actor(part) => (part, add_actor(rows, part)),
            Record::Channel(part) => (part, add_channel(rows, part)),
            Record::End(_) => return Ok(()),
        };
        added.map_err(|fault| LoadFault::Row { head, fault })?;
        // A record is as long as its words say, which is known once it is read.
        head += part.len();
    }
}

// Adds the actor of a record.
fn add_actor(rows: &mut Rows, part: &[u32]) -> Result<usize, Fault>
    requires { (head_content part.now < 256) × (suc (head_content part.now) ≤ length part.now) }
    ensures { Does (add_actor (actor_of part.now)) (table_of rows.old) (table_of rows.new) result }
{
    let count = content_of(part[0]) as usize;
    let times = contents(&part[1..count + 1]);
    let rest = Place {
        words: part,
        index: count + 1,
    };
    let not_before = rest.given(Kind::NotBefore);
    let pin = rest.past(Kind::NotBefore).given(Kind::Pin);
    rows.edit(NewActor {
        times: &times[..count],
        not_before,
        placement: Placement::from(pin),
    })
}

// Adds the channel of a record.
fn add_channel(rows: &mut Rows, part: &[u32]) -> Result<usize, Fault>
    requires { suc (writes_in (head_content part.now) + reads_in (head_content part.now)) ≤ length part.now }
    ensures { Does (add_channel (channel_of part.now)) (table_of rows.old) (table_of rows.new) result }
{
    let ends = Ends::of(content_of(part[0]));
    let writes_end = ends.writes + 1;
    let reads_end = writes_end + ends.reads;
    let writes = contents(&part[1..writes_end]);
    let reads = contents(&part[writes_end..reads_end]);
    let rest = Place {
        words: part,
        index: reads_end,
    };
    rows.edit(NewChannel {
        writer: ends.writer,
        reader: ends.reader,
        writes: &writes[..ends.writes],
        reads: &reads[..ends.reads],
        ceiling: rest.given(Kind::Ceiling),
    })
}

// The contents of the words of a list, which a head counts in 8 bits. They lie in an array, whose length the caller
// has: a load takes no memory, and an `ArrayVec` would be of one more crate.
fn contents(words: &[u32]) -> [u32; 255]
    requires { length words.now ≤ 255 }
    ensures { take (length words.now) result ≡ map content_of words.now }
{
    let mut numbers = [0; 255];
    for (i, word) in words.iter().enumerate() {
        numbers[i] = content_of(*word);
    }
    numbers
}
