// A draft made, a change opened and kept.
ghost use Rattle.std.specs.Prelude.{◌≡◌, true, false, IfOk, MatchResult, None};
ghost use Rattle.rows.specs.declared.fault.Fault.TheVariants.{TicketRefused};
ghost use Rattle.rows.specs.Steps.{Does, answer};
ghost use Rattle.rows.specs.Table.{check};
ghost use Rattle.draft.specs.Book.{new_book, accepts, opening, keeping, or_gives_back};
ghost use Rattle.draft.specs.Drafts.{book_of};

use crate::draft::Draft;
use crate::ticket::{Returned, Ticket};
use rows::fault::Fault;
use std::alloc::{AllocError, Global};
use table::storage::Rows;

impl Draft {
    // An empty draft with a mark. It takes here all the memory that it ever needs.
    pub fn new(heap: Global, mark: u32) -> Result<Draft, AllocError>
        ensures { IfOk result (λ draft. book_of draft ≡ new_book mark) }
    {
        let working = Rows::new(heap)?;
        let saved = Rows::new(heap)?;
        Ok(Draft {
            mark,
            working,
            saved,
            changing: false,
        })
    }

    // Opens a change: saves a copy of the rows, and gives the ticket that the change is kept or withdrawn with.
    pub fn open(&mut self) -> Result<Ticket, Fault>
        ensures { Does opening (book_of self.old) (book_of self.new) result }
    {
        if self.changing {
            return Err(Fault::ChangeOpen);
        }
        self.saved.copy_from(&self.working);
        self.changing = true;
        Ok(Ticket::new(self.mark))
    }

    // Ends the change, and leaves the rows as edited.
    pub fn keep(&mut self, ticket: Ticket) -> Result<(), Returned>
        ensures { Does (or_gives_back ticket (keeping ticket.mark)) (book_of self.old) (book_of self.new) result }
    {
        let ticket = self.accept(ticket)?;
        self.changing = false;
        ticket.spend();
        Ok(())
    }

    // A ticket is accepted by its mark, while a change is open.
    pub(crate) fn check(&self, ticket: &Ticket) -> Result<(), Fault>
        ensures { result ≡ answer (check (accepts (book_of self.now) ticket.now.mark) TicketRefused None) tt }
    {
        if self.changing && ticket.mark() == self.mark {
            Ok(())
        } else {
            Err(Fault::TicketRefused)
        }
    }

    // Gives the ticket back, with the refusal where it is not accepted. By a match: the ticket goes into either answer.
    pub(crate) fn accept(&self, ticket: Ticket) -> Result<Ticket, Returned>
        ensures { MatchResult result
            (λ t. (accepts (book_of self.now) ticket.mark ≡ true) × (t ≡ ticket))
            (λ r. (accepts (book_of self.now) ticket.mark ≡ false) × (r ≡ record { ticket = ticket; fault = TicketRefused })) }
    {
        match self.check(&ticket) {
            Ok(()) => Ok(ticket),
            Err(fault) => Err(Returned::new(ticket, fault)),
        }
    }
}
