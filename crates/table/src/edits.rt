// The edits of a table.
ghost use Rattle.std.specs.Prelude.{◌≡◌, not, map, vec_capacity};
ghost use Rattle.rows.specs.Steps.{Does};
ghost use Rattle.std.specs.List.{list_all};
ghost use Rattle.rows.specs.Table.{names, renumbered_ends, add_actor, add_channel, cut_actor, cut_channel};
ghost use Rattle.rows.specs.Values.{channel_row, new_actor_row, new_channel_row};
ghost use Rattle.table.specs.Edits.{itself, actor_added, channel_added, actor_cut, channel_cut};
ghost use Rattle.table.specs.Tables.{table_of};

use crate::edit::Edit;
use crate::storage::{MOST_ACTORS, MOST_CHANNELS, Rows};
use rows::fault::Fault;
use rows::row::{Actor, Channel, NewActor, NewChannel};

// A new actor gets the next number. What it shares with a new channel is the library's `push_reserved`: the rest differs in
// the list, its limit and what `new` looks at, which would all be parameters of a function for both.
impl Edit for NewActor<'_> {
    type Answer = usize;

    ghost step = { λ a. add_actor (new_actor_row a) };

    ghost known = { λ a. actor_added (new_actor_row a) itself };

    fn make(self, rows: &mut Rows) -> Result<usize, Fault> {
        let number = rows.actors.len();
        if number >= MOST_ACTORS {
            return Err(Fault::TableFull);
        }
        let actor = Actor::new(self)?;
        rows.actors.push_reserved(actor);
        Ok(number)
    }
}

// A new channel gets the next number.
impl Edit for NewChannel<'_> {
    type Answer = usize;

    ghost step = { λ c. add_channel (new_channel_row c) };

    ghost known = { λ c. channel_added (new_channel_row c) itself };

    fn make(self, rows: &mut Rows) -> Result<usize, Fault> {
        let number = rows.channels.len();
        if number >= MOST_CHANNELS {
            return Err(Fault::TableFull);
        }
        let channel = Channel::new(&rows.actors, self)?;
        rows.channels.push_reserved(channel);
        Ok(number)
    }
}

// Cuts the channel of this number: every later channel's number is one lower.
#[derive(Clone, Copy, Debug)]
pub struct CutChannel(pub usize);

impl Edit for CutChannel {
    type Answer = ();

    ghost step = { λ cut. cut_channel cut.0 };

    ghost known = { λ cut. channel_cut cut.0 itself };

    fn make(self, rows: &mut Rows) -> Result<(), Fault> {
        let CutChannel(number) = self;
        if number >= rows.channels.len() {
            return Err(Fault::NoChannel);
        }
        let _ = rows.channels.remove(number);
        Ok(())
    }
}

// Cuts the actor of this number, which no channel names: every later actor's number is one lower, in the channels too.
#[derive(Clone, Copy, Debug)]
pub struct CutActor(pub usize);

impl Edit for CutActor {
    type Answer = ();

    ghost step = { λ cut. cut_actor cut.0 };

    ghost known = { λ cut. actor_cut cut.0 itself };

    fn make(self, rows: &mut Rows) -> Result<(), Fault> {
        let CutActor(number) = self;
        if number >= rows.actors.len() {
            return Err(Fault::NoActor);
        }
        if !is_unused(&rows.channels, number) {
            return Err(Fault::ActorInUse);
        }
        let _ = rows.actors.remove(number);
        renumber(&mut rows.channels, number);
        Ok(())
    }
}

// No channel has the actor at an end.
fn is_unused(channels: &[Channel], actor: usize) -> bool
    ensures { result ≡ list_all (λ c. not (names actor c)) (map channel_row channels.now) }
{
    channels.iter().all(|channel| !channel.names(actor))
}

// Gives each channel the numbers that its actors have once an actor is cut.
fn renumber(channels: &mut Vec<Channel>, gone: usize)
    ensures rows { map channel_row channels.new.items ≡ map (renumbered_ends gone) (map channel_row channels.old.items) }
    ensures capacity { vec_capacity channels.new ≡ vec_capacity channels.old }
{
    for channel in channels.iter_mut() {
        *channel = channel.after_cut(gone);
    }
}
