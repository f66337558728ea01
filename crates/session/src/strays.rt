// Tickets of any mark: each comes from a change opened on another draft of that mark.
ghost use Rattle.std.specs.Prelude.{◌≡◌, true, IfOk};
ghost use Rattle.draft.specs.Drafts.{book_of};
ghost use Rattle.draft.specs.Tickets.{ticket_of};

use draft::draft::Draft;
use draft::ticket::Ticket;
use std::alloc::{AllocError, Global};

// A draft of this mark with a change open, and the ticket of the change.
pub(crate) fn stray(heap: Global, mark: u32) -> Result<(Draft, Ticket), AllocError>
    ensures { IfOk result (λ p. ((book_of p.0).changing ≡ true) × ((book_of p.0).mark ≡ mark) × (p.1 ≡ ticket_of mark)) }
{
    let mut other = Draft::new(heap, mark)?;
    let ticket = other.open().unwrap();
    Ok((other, ticket))
}

// Ends the change that the ticket stands for, on a draft that accepts it.
pub(crate) fn hand_in(mut draft: Draft, ticket: Ticket)
    requires { ((book_of draft).changing ≡ true) × (ticket.mark ≡ (book_of draft).mark) }
{
    draft.withdraw(ticket).unwrap();
}
