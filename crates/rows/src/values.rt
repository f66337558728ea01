// The numbers of a row's phases, and channels whose actors get other numbers.
ghost use Rattle.std.specs.Prelude.{◌≡◌, ◌≤◌, length, take};
ghost use Rattle.rows.specs.Table.{names, pin_of, placed, renumbered, renumbered_ends};
ghost use Rattle.rows.specs.Values.{listed, channel_row};

use crate::row::{Channel, Phases, Placement};

impl Phases {
    // The numbers given, of which there are at most eight.
    pub(crate) fn new(numbers: &[u32]) -> Phases
        requires { length numbers.now ≤ 8 }
        ensures { listed result ≡ numbers.now }
    {
        let values = padded(numbers);
        Phases {
            count: numbers.len(),
            values,
        }
    }

    // The numbers, phase by phase.
    pub fn as_slice(&self) -> &[u32]
        ensures { result.now ≡ listed self.now }
    {
        &self.values[0..self.count]
    }
}

fn padded(numbers: &[u32]) -> [u32; 8]
    requires { length numbers.now ≤ 8 }
    ensures { take (length numbers.now) result ≡ numbers.now }
{
    let mut values = [0; 8];
    values[..numbers.len()].copy_from_slice(numbers);
    values
}

impl Placement {
    // The processor that the actor is pinned to, if it is. A method, which reads as what it gives, and no `From`.
    pub fn pin(self) -> Option<u32>
        ensures { result ≡ pin_of self }
    {
        match self {
            Placement::Free => None,
            Placement::Pinned(processor) => Some(processor),
        }
    }
}

// Pinned to this processor, or free.
impl From<Option<u32>> for Placement {
    ghost from_gives = { λ pin r. r ≡ placed pin };

    fn from(pin: Option<u32>) -> Placement {
        match pin {
            None => Placement::Free,
            Some(processor) => Placement::Pinned(processor),
        }
    }
}

impl Channel {
    // The channel has the actor at an end.
    pub fn names(&self, actor: usize) -> bool
        ensures { result ≡ names actor (channel_row self.now) }
    {
        actor == self.writer || actor == self.reader
    }

    // The channel with the numbers that its actors have once another actor is cut.
    pub fn after_cut(self, gone: usize) -> Channel
        ensures { channel_row result ≡ renumbered_ends gone (channel_row self) }
    {
        Channel {
            writer: number_after_cut(self.writer, gone),
            reader: number_after_cut(self.reader, gone),
            ..self
        }
    }
}

fn number_after_cut(actor: usize, gone: usize) -> usize
    ensures { result ≡ renumbered gone actor }
{
    if actor > gone { actor - 1 } else { actor }
}
