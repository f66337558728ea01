// The edits of a draft, each shown the ticket of the change.
ghost use Rattle.rows.specs.Steps.{Does};
ghost use Rattle.table.specs.Edits.{EditOf};
ghost use Rattle.draft.specs.Book.{editing};
ghost use Rattle.draft.specs.Drafts.{book_of};

use crate::draft::Draft;
use crate::ticket::Ticket;
use rows::fault::Fault;
use table::edit::Edit;

impl Draft {
    // Makes an edit of the rows.
    pub fn edit<E: Edit>(&mut self, ticket: &Ticket, edit: E) -> Result<E::Answer, Fault>
        ensures made { Does (editing ticket.now.mark (E.step edit)) (book_of self.old) (book_of self.new) result }
        ensures known { EditOf E.Answer (E.step edit) }
    {
        self.check(ticket)?;
        self.working.edit(edit)
    }
}
