// A session serves one call after the other.
ghost use Rattle.std.specs.Prelude.{◌≡◌, true, false, is_ok, IfOk};
ghost use Rattle.rows.specs.Steps.{Does};
ghost use Rattle.table.specs.Tables.{table_of};
ghost use Rattle.draft.specs.Book.{new_book, accepts, opening, editing, or_gives_back};
ghost use Rattle.draft.specs.Drafts.{book_of};
ghost use Rattle.session.specs.Calls.{done, rows, said_of, saying, edit_step, end_step, call_step, asks_memory, Tells};
ghost use Rattle.session.specs.Sessions.{session_book, Serves};

use crate::calls::{Answer, Call, Edit, Ending};
use crate::session::Session;
use crate::strays::{hand_in, stray};
use draft::draft::Draft;
use draft::ticket::{Returned, Ticket};
use rows::row::{NewActor, NewChannel};
use std::alloc::{AllocError, Global};
use table::edits::{CutActor, CutChannel};
use table::storage::Rows;

impl Session {
    // A session on a new draft of this mark.
    pub fn new(heap: Global, mark: u32) -> Result<Session, AllocError>
        ensures { IfOk result (λ session. session_book session ≡ new_book mark) }
    {
        Ok(Session {
            draft: Draft::new(heap, mark)?,
            hand: None,
        })
    }

    // The draft's rows as edited so far.
    pub fn rows(&self) -> &Rows
        ensures { table_of result.now ≡ (session_book self.now).working }
    {
        self.draft.rows()
    }

    // Serves a call. Where memory is wanting, the call is not made; few calls ask for memory.
    pub fn serve(&mut self, heap: Global, call: &Call) -> Result<Answer, AllocError>
        ensures served { Serves (call_step call.now) (session_book self.old) (session_book self.new) result }
        ensures succeeds { asks_memory (session_book self.old) call.now ≡ false → is_ok result ≡ true }
    {
        match call {
            Call::Open => Ok(self.open()),
            Call::Edit(shown, edit) => self.edit(heap, *shown, edit),
            Call::End(shown, ending) => self.end(heap, *shown, *ending),
            Call::Rows => self.copy_rows(heap),
        }
    }

    // Opens a change, and takes its ticket in hand. By a match: of what a closure puts into the hand, a proof knows nothing.
    fn open(&mut self) -> Answer
        ensures { Tells (saying (λ _. done) opening) (session_book self.old) (session_book self.new) (said_of result) }
    {
        match self.draft.open() {
            Ok(ticket) => {
                self.hand = Some(ticket);
                Answer::Done
            }
            Err(fault) => Answer::Refused(fault),
        }
    }

    // Makes an edit, shown the ticket in hand or else a stray one. It and `end` choose alike, and no function serves both: an
    // edit borrows its ticket, and an end takes it.
    fn edit(&mut self, heap: Global, shown: u32, edit: &Edit) -> Result<Answer, AllocError>
        ensures served { Serves (editing shown (edit_step edit.now)) (session_book self.old) (session_book self.new) result }
        ensures succeeds { accepts (session_book self.old) shown ≡ true → is_ok result ≡ true }
    {
        if self.would_accept(shown) {
            return Ok(self.edit_with_own(edit));
        }
        self.edit_with_stray(heap, shown, edit)
    }

    fn edit_with_own(&mut self, edit: &Edit) -> Answer
        requires { (session_book self.old).changing ≡ true }
        ensures { Tells (editing (session_book self.old).mark (edit_step edit.now)) (session_book self.old) (session_book self.new) (said_of result) }
    {
        let ticket = self.hand.as_ref().unwrap();
        apply(&mut self.draft, ticket, edit)
    }

    fn edit_with_stray(
        &mut self,
        heap: Global,
        shown: u32,
        edit: &Edit,
    ) -> Result<Answer, AllocError>
        ensures { Serves (editing shown (edit_step edit.now)) (session_book self.old) (session_book self.new) result }
    {
        let (other, ticket) = stray(heap, shown)?;
        let answer = apply(&mut self.draft, &ticket, edit);
        hand_in(other, ticket);
        Ok(answer)
    }

    // Ends the change with the ticket in hand, or is refused with a stray one.
    fn end(&mut self, heap: Global, shown: u32, ending: Ending) -> Result<Answer, AllocError>
        ensures served { Serves (saying (λ _. done) (end_step ending shown)) (session_book self.old) (session_book self.new) result }
        ensures succeeds { accepts (session_book self.old) shown ≡ true → is_ok result ≡ true }
    {
        if self.would_accept(shown) {
            return Ok(self.end_with_own(ending));
        }
        self.end_with_stray(heap, shown, ending)
    }

    // The draft would accept a ticket of this mark.
    fn would_accept(&self, shown: u32) -> bool
        ensures { result ≡ accepts (session_book self.now) shown }
    {
        self.draft.is_changing() && shown == self.draft.mark()
    }

    fn end_with_own(&mut self, ending: Ending) -> Answer
        requires { (session_book self.old).changing ≡ true }
        ensures { Tells (saying (λ _. done) (end_step ending (session_book self.old).mark)) (session_book self.old) (session_book self.new) (said_of result) }
    {
        let ticket = self.hand.take().unwrap();
        finish(&mut self.draft, ticket, ending).unwrap();
        Answer::Done
    }

    fn end_with_stray(
        &mut self,
        heap: Global,
        shown: u32,
        ending: Ending,
    ) -> Result<Answer, AllocError>
        requires { accepts (session_book self.old) shown ≡ false }
        ensures { Serves (saying (λ _. done) (end_step ending shown)) (session_book self.old) (session_book self.new) result }
    {
        let (other, ticket) = stray(heap, shown)?;
        let returned = finish(&mut self.draft, ticket, ending).unwrap_err();
        let fault = returned.fault();
        hand_in(other, returned.into_ticket());
        Ok(Answer::Refused(fault))
    }

    fn copy_rows(&self, heap: Global) -> Result<Answer, AllocError>
        ensures { IfOk result (λ a. said_of a ≡ rows (session_book self.now).working) }
    {
        let mut copy = Rows::new(heap)?;
        copy.copy_from(self.draft.rows());
        Ok(Answer::Rows(copy))
    }
}

// Makes an edit of a draft.
fn apply(draft: &mut Draft, ticket: &Ticket, edit: &Edit) -> Answer
    ensures { Tells (editing ticket.now.mark (edit_step edit.now)) (book_of draft.old) (book_of draft.new) (said_of result) }
{
    match edit {
        Edit::AddActor {
            times,
            not_before,
            placement,
        } => {
            let actor = NewActor {
                times,
                not_before: *not_before,
                placement: *placement,
            };
            draft
                .edit(ticket, actor)
                .map_or_else(Answer::Refused, Answer::Actor)
        }
        Edit::AddChannel {
            writer,
            reader,
            writes,
            reads,
            ceiling,
        } => {
            let channel = NewChannel {
                writer: *writer,
                reader: *reader,
                writes,
                reads,
                ceiling: *ceiling,
            };
            draft
                .edit(ticket, channel)
                .map_or_else(Answer::Refused, Answer::Channel)
        }
        Edit::CutActor(number) => draft
            .edit(ticket, CutActor(*number))
            .map_or_else(Answer::Refused, |()| Answer::Done),
        Edit::CutChannel(number) => draft
            .edit(ticket, CutChannel(*number))
            .map_or_else(Answer::Refused, |()| Answer::Done),
    }
}

// Keeps or withdraws the change, as the call says, which is data.
fn finish(draft: &mut Draft, ticket: Ticket, ending: Ending) -> Result<(), Returned>
    ensures { Does (or_gives_back ticket (end_step ending ticket.mark)) (book_of draft.old) (book_of draft.new) result }
{
    match ending {
        Ending::Keep => draft.keep(ticket),
        Ending::Withdraw => draft.withdraw(ticket),
    }
}
