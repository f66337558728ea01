// A change withdrawn.
ghost use Rattle.rows.specs.Steps.{Does};
ghost use Rattle.draft.specs.Book.{withdrawing, or_gives_back};
ghost use Rattle.draft.specs.Drafts.{book_of};

use crate::draft::Draft;
use crate::ticket::{Returned, Ticket};

impl Draft {
    // Ends the change, and puts back the rows that were saved when it was opened.
    pub fn withdraw(&mut self, ticket: Ticket) -> Result<(), Returned>
        ensures { Does (or_gives_back ticket (withdrawing ticket.mark)) (book_of self.old) (book_of self.new) result }
    {
        let ticket = self.accept(ticket)?;
        std::mem::swap(&mut self.working, &mut self.saved);
        self.changing = false;
        ticket.spend();
        Ok(())
    }
}
