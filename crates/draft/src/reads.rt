// A draft read: its mark, whether a change is open, and its rows as edited so far.
ghost use Rattle.std.specs.Prelude.{◌≡◌};
ghost use Rattle.rows.specs.declared.fault.Fault.TheVariants.{NoActor, NoChannel};
ghost use Rattle.table.specs.Tables.{table_of, RowAt};
ghost use Rattle.rows.specs.Values.{actor_row, channel_row};
ghost use Rattle.draft.specs.Drafts.{book_of};

use crate::draft::Draft;
use rows::fault::Fault;
use rows::row::{Actor, Channel};
use table::storage::Rows;

impl Draft {
    pub fn mark(&self) -> u32
        ensures { result ≡ (book_of self.now).mark }
    {
        self.mark
    }

    pub fn is_changing(&self) -> bool
        ensures { result ≡ (book_of self.now).changing }
    {
        self.changing
    }

    // The rows as edited so far.
    pub fn rows(&self) -> &Rows
        ensures { table_of result.now ≡ (book_of self.now).working }
    {
        &self.working
    }

    // The actor of this number. It and `channel` are a line each: a trait of rows would take more.
    pub fn actor(&self, number: usize) -> Result<Actor, Fault>
        ensures { RowAt actor_row (book_of self.now).working.actors number NoActor result }
    {
        self.working.actor(number)
    }

    // The channel of this number.
    pub fn channel(&self, number: usize) -> Result<Channel, Fault>
        ensures { RowAt channel_row (book_of self.now).working.channels number NoChannel result }
    {
        self.working.channel(number)
    }
}
