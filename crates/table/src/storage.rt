// The rows of one table, in memory that is taken when the table is made: no edit asks for more.
ghost use Rattle.std.specs.Prelude.{◌≡◌, ◌≤◌, true, vec_capacity};
ghost use Rattle.rows.specs.Table.{lawful};
ghost use Rattle.rows.specs.Values.{table_from};

use rows::row::{Actor, Channel};

// The most rows that a table may have.
pub(crate) const MOST_ACTORS: usize = 64;

pub(crate) const MOST_CHANNELS: usize = 128;

#[derive(Drop)]
pub struct Rows {
    pub(crate) actors: Vec<Actor>,
    pub(crate) channels: Vec<Channel>,
    ghost actor_room: { 64 ≤ vec_capacity actors },
    ghost channel_room: { 128 ≤ vec_capacity channels },
    ghost accepted: { lawful (table_from actors.items channels.items) ≡ true },
}
