// Rows made of plain values, where the checks of a row accept them.
ghost use Rattle.std.specs.Prelude.{◌≡◌, ◌&&◌, map, length, Some, None, MatchResult, ◌==◌, nat_lt};
ghost use Rattle.std.specs.List.{list_all};
ghost use Rattle.rows.specs.Steps.{answer};
ghost use Rattle.rows.specs.Table.{actor_fault, channel_fault, within, within_if_given, pin_within, good_rates, phases_at};
ghost use Rattle.rows.specs.Values.{actor_row, channel_row, new_actor_row, new_channel_row};

use crate::fault::Fault;
use crate::row::{Actor, Channel, NewActor, NewChannel, Phases};

impl Actor {
    // The actor of these values, or the first of its checks that fails.
    pub fn new(actor: NewActor) -> Result<Actor, Fault>
        ensures { MatchResult result
            (λ a. (actor_fault (new_actor_row actor.entry) ≡ None) × (actor_row a ≡ new_actor_row actor.entry))
            (λ f. actor_fault (new_actor_row actor.entry) ≡ Some f) }
    {
        check_actor(actor)?;
        Ok(Actor {
            times: Phases::new(actor.times),
            not_before: actor.not_before,
            placement: actor.placement,
        })
    }
}

impl Channel {
    // The channel of these values in a table of these actors, or the first of its checks that fails.
    pub fn new(actors: &[Actor], channel: NewChannel) -> Result<Channel, Fault>
        ensures { MatchResult result
            (λ c. (channel_fault (map actor_row actors.now) (new_channel_row channel.entry) ≡ None) × (channel_row c ≡ new_channel_row channel.entry))
            (λ f. channel_fault (map actor_row actors.now) (new_channel_row channel.entry) ≡ Some f) }
    {
        check_channel(actors, channel)?;
        Ok(Channel {
            writer: channel.writer,
            reader: channel.reader,
            writes: Phases::new(channel.writes),
            reads: Phases::new(channel.reads),
            ceiling: channel.ceiling,
        })
    }
}

// The checks of an actor row, in their order.
fn check_actor(actor: NewActor) -> Result<(), Fault>
    ensures { result ≡ answer (actor_fault (new_actor_row actor.entry)) tt }
{
    if !(1..=8).contains(&actor.times.len()) {
        return Err(Fault::PhaseCount);
    }
    if !are_within(actor.times, 1, 1_000_000) {
        return Err(Fault::TimeRange);
    }
    if !is_within_if_given(actor.not_before, 0, 1_000_000) {
        return Err(Fault::NotBeforeRange);
    }
    if !is_within_if_given(actor.placement.pin(), 0, 15) {
        return Err(Fault::PinRange);
    }
    Ok(())
}

// The checks of a channel row in a table of these actors, in their order.
fn check_channel(actors: &[Actor], channel: NewChannel) -> Result<(), Fault>
    ensures { result ≡ answer (channel_fault (map actor_row actors.now) (new_channel_row channel.entry)) tt }
{
    if channel.writer >= actors.len() || channel.reader >= actors.len() {
        return Err(Fault::NoActor);
    }
    if channel.writer == channel.reader {
        return Err(Fault::SameActor);
    }
    if channel.writes.len() != phases_at(actors, channel.writer)
        || channel.reads.len() != phases_at(actors, channel.reader)
    {
        return Err(Fault::RateCount);
    }
    if !are_good_rates(channel.writes) || !are_good_rates(channel.reads) {
        return Err(Fault::RateRange);
    }
    if !is_within_if_given(channel.ceiling, 1, 65_535) {
        return Err(Fault::CeilingRange);
    }
    Ok(())
}

// How many phases the actor at a place has, 0 where there is none.
fn phases_at(actors: &[Actor], place: usize) -> usize
    ensures { result ≡ phases_at (map actor_row actors.now) place }
{
    match actors.get(place) {
        Some(actor) => actor.times.as_slice().len(),
        None => 0,
    }
}

// No rate is above 255, and not all are 0.
fn are_good_rates(rates: &[u32]) -> bool
    ensures { result ≡ good_rates rates.now }
{
    are_within(rates, 0, 255) && !are_within(rates, 0, 0)
}

fn are_within(numbers: &[u32], low: u32, high: u32) -> bool
    ensures { result ≡ list_all (within low high) numbers.now }
{
    numbers.iter().all(|n| (low..=high).contains(n))
}

fn is_within_if_given(number: Option<u32>, low: u32, high: u32) -> bool
    ensures { result ≡ within_if_given low high number }
{
    number.is_none_or(|n| (low..=high).contains(&n))
}
