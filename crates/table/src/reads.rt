// A table made, read and copied.
ghost use Rattle.std.specs.Prelude.{◌≡◌, ◌≤◌, map, length, IfOk, vec_capacity};
ghost use Rattle.rows.specs.declared.fault.Fault.TheVariants.{NoActor, NoChannel};
ghost use Rattle.rows.specs.Table.{empty_table};
ghost use Rattle.table.specs.Tables.{table_of, RowAt};
ghost use Rattle.rows.specs.Values.{actor_row, channel_row};

use crate::storage::{MOST_ACTORS, MOST_CHANNELS, Rows};
use rows::fault::Fault;
use rows::row::{Actor, Channel};
use std::alloc::{AllocError, Global};

impl Rows {
    // A table of no rows, with the memory for all the rows that it may come to have.
    pub fn new(heap: Global) -> Result<Rows, AllocError>
        ensures { IfOk result (λ rows. table_of rows ≡ empty_table) }
    {
        let actors = Vec::with_capacity(heap, MOST_ACTORS)?;
        let channels = Vec::with_capacity(heap, MOST_CHANNELS)?;
        Ok(Rows { actors, channels })
    }

    pub fn actors(&self) -> &[Actor]
        ensures { map actor_row result.now ≡ (table_of self.now).actors }
    {
        &self.actors
    }

    pub fn channels(&self) -> &[Channel]
        ensures { map channel_row result.now ≡ (table_of self.now).channels }
    {
        &self.channels
    }

    // The actor of this number. It and `channel` are a line each: a trait of rows would take more.
    pub fn actor(&self, number: usize) -> Result<Actor, Fault>
        ensures { RowAt actor_row (table_of self.now).actors number NoActor result }
    {
        self.actors.get(number).copied().ok_or(Fault::NoActor)
    }

    // The channel of this number.
    pub fn channel(&self, number: usize) -> Result<Channel, Fault>
        ensures { RowAt channel_row (table_of self.now).channels number NoChannel result }
    {
        self.channels.get(number).copied().ok_or(Fault::NoChannel)
    }

    // Makes these rows the same as the others, in the memory that they have.
    pub fn copy_from(&mut self, other: &Rows)
        ensures { table_of self.new ≡ table_of other.now }
    {
        refill(&mut self.actors, &other.actors);
        refill(&mut self.channels, &other.channels);
    }

    // Removes all rows, and keeps their memory.
    pub fn clear(&mut self)
        ensures { table_of self.new ≡ empty_table }
    {
        self.actors.clear();
        self.channels.clear();
    }
}

// Replaces what a list holds, in the memory that it has.
fn refill<T: Copy>(list: &mut Vec<T>, items: &[T])
    requires { length items.now ≤ vec_capacity list.old }
    ensures items { list.new.items ≡ items.now }
    ensures capacity { vec_capacity list.old ≤ vec_capacity list.new }
{
    list.clear();
    list.extend_from_slice(items).unwrap();
}
