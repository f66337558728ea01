// A draft together with the ticket of its open change.
ghost use Rattle.std.specs.Prelude.{◌≡◌, is_some};
ghost use Rattle.draft.specs.Drafts.{book_of};
ghost use Rattle.session.specs.Hands.{mark_or};

use crate::strays::hand_in;
use draft::draft::Draft;
use draft::ticket::Ticket;

pub struct Session {
    pub(crate) draft: Draft,
    pub(crate) hand: Option<Ticket>,
    ghost held: { is_some hand ≡ (book_of draft).changing },
    ghost same: { mark_or hand (book_of draft).mark ≡ (book_of draft).mark },
}

// An open change is withdrawn when its session ends.
impl Drop for Session {
    fn drop(self) {
        let Session { draft, hand } = self;
        if let Some(ticket) = hand {
            hand_in(draft, ticket);
        }
    }
}
