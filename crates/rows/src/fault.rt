// Why a call on a draft is refused.
ghost use Rattle.std.specs.Prelude.{◌≡◌, ℕ, Some};
ghost use Rattle.rows.specs.Faults.{shown, number_of, place_of, fault_text};

use std::error::Error;
use std::fmt;

// Each case is the number by which the refusal is known.
#[derive(Clone, Copy, PartialEq, Eq, Debug)]
pub enum Fault {
    // A change is open already.
    ChangeOpen = 1,
    // No change is open, or the ticket has another mark than the draft.
    TicketRefused = 2,
    // The table has no room for another row of this kind.
    TableFull = 3,
    // The number of phases is not 1 to 8.
    PhaseCount = 4,
    // A phase time is not 1 to 1,000,000.
    TimeRange = 5,
    // A not-before tick is above 1,000,000.
    NotBeforeRange = 6,
    // A pin names a processor above 15.
    PinRange = 7,
    // No actor has this number.
    NoActor = 8,
    // The writer of a channel is its reader.
    SameActor = 9,
    // A list of rates is not as long as its actor has phases.
    RateCount = 10,
    // A rate is above 255, or a list of rates is all zero.
    RateRange = 11,
    // A ceiling is not 1 to 65,535.
    CeilingRange = 12,
    // No channel has this number.
    NoChannel = 13,
    // A channel names the actor.
    ActorInUse = 14,
}

// A refusal.
pub trait Refusal {
    ghost number_and_place: { Self → ℕ × ℕ };

    // The number by which it is known.
    fn number(&self) -> u32
        ensures { result ≡ (number_and_place self.now).0 };

    // The place that it names, or 0 where it names none.
    fn place(&self) -> usize
        ensures { result ≡ (number_and_place self.now).1 };
}

impl Fault {
    // The number by which the refusal is known.
    pub fn number(self) -> u32
        ensures { result ≡ number_of self }
    {
        self as u32
    }

    // The place that the refusal names: 0, since none of these names one.
    pub fn place(self) -> u32
        ensures { result ≡ place_of self }
    {
        0
    }
}

impl Refusal for Fault {
    ghost number_and_place = { shown };

    fn number(&self) -> u32 {
        Fault::number(*self)
    }

    fn place(&self) -> usize {
        Fault::place(*self) as usize
    }
}

// The number of the refusal and the place that it names.
impl fmt::Display for Fault {
    ghost output = { λ f. Some (fault_text f) };

    fn fmt<W: fmt::Write>(&self, f: &mut fmt::Formatter<W>) -> fmt::Result {
        write!(f, "{} at {}", self.number(), self.place())
    }
}

impl Error for Fault {}
