// A list of calls, run on a new draft.
ghost use Rattle.std.specs.Prelude.{IfOk};
ghost use Rattle.session.specs.Runs.{Follows};

use crate::calls::Call;
use crate::outcome::Outcome;
use crate::session::Session;
use std::alloc::{AllocError, Global};

// Runs the calls, one after the other, on a new draft of this mark.
pub fn run(heap: Global, mark: u32, calls: &[Call]) -> Result<Outcome, AllocError>
    ensures { IfOk result (λ outcome. Follows mark calls.now outcome) }
{
    let mut session = Session::new(heap, mark)?;
    let mut answers = Vec::new(heap);
    for call in calls {
        let answer = session.serve(heap, call)?;
        answers.push(answer)?;
    }
    Ok(Outcome { answers, session })
}
