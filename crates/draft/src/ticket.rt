// The ticket of a change. Keep and withdraw spend it, and nothing else may let it go.
ghost use Rattle.std.specs.Prelude.{◌≡◌, true};
ghost use Rattle.draft.specs.Tickets.{ticket_of};

use rows::fault::Fault;

// A flag says whether it is spent, and no type: by a rule of this project a ticket is of plain values, and its drop is
// lawful only once it is spent.
pub struct Ticket {
    mark: u32,
    spent: bool,
}

impl Drop for Ticket {
    fn drop(self)
        requires { self.spent ≡ true }
    {
        let Ticket { mark: _, spent: _ } = self;
    }
}

impl Ticket {
    // The mark of the draft that gave the ticket.
    pub fn mark(&self) -> u32
        ensures { result ≡ self.now.mark }
    {
        self.mark
    }

    pub(crate) fn new(mark: u32) -> Ticket
        ensures { result ≡ ticket_of mark }
    {
        Ticket { mark, spent: false }
    }

    pub(crate) fn spend(mut self) {
        self.spent = true;
    }
}

// A refusal of keep or withdraw, with the ticket that it gives back. Its drop asks what the ticket's asks.
#[derive(Drop)]
pub struct Returned {
    ticket: Ticket,
    fault: Fault,
}

impl Returned {
    pub(crate) fn new(ticket: Ticket, fault: Fault) -> Returned
        ensures { result ≡ record { ticket = ticket; fault = fault } }
    {
        Returned { ticket, fault }
    }

    pub fn fault(&self) -> Fault
        ensures { result ≡ self.now.fault }
    {
        self.fault
    }

    pub fn into_ticket(self) -> Ticket
        ensures { result ≡ self.ticket }
    {
        let Returned { ticket, fault: _ } = self;
        ticket
    }
}
