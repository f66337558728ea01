// The calls that a run takes, and their answers.
use rows::fault::Fault;
use rows::row::Placement;
use table::storage::Rows;

// Calls are cases and no closures: a script is read into them, and promises speak of a list of them.

// An edit of the rows.
#[derive(Drop)]
pub enum Edit {
    AddActor {
        times: Vec<u32>,
        not_before: Option<u32>,
        placement: Placement,
    },
    AddChannel {
        writer: usize,
        reader: usize,
        writes: Vec<u32>,
        reads: Vec<u32>,
        ceiling: Option<u32>,
    },
    CutActor(usize),
    CutChannel(usize),
}

// How a change ends.
#[derive(Clone, Copy, PartialEq, Eq, Debug)]
pub enum Ending {
    Keep,
    Withdraw,
}

// A call. An edit and the end of a change name the mark of the ticket that they show.
#[derive(Drop)]
pub enum Call {
    Open,
    Edit(u32, Edit),
    End(u32, Ending),
    Rows,
}

// What a call is answered. A refusal is a case, as in the definitions: an `Err` of `serve` is that memory is wanting.
#[derive(Drop)]
pub enum Answer {
    // The call was granted.
    Done,
    // The number of the actor that was added.
    Actor(usize),
    // The number of the channel that was added.
    Channel(usize),
    // The call was refused, and nothing was altered.
    Refused(Fault),
    // A copy of the draft's rows.
    Rows(Rows),
}
