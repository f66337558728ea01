// What a run of calls gives.
use crate::calls::Answer;
use crate::session::Session;

// The answers to a list of calls, and the session as the last call left it.
#[derive(Drop)]
pub struct Outcome {
    pub answers: Vec<Answer>,
    pub session: Session,
}
