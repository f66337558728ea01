// One row: an actor with its phase times, or a channel with its rates.
ghost use Rattle.std.specs.Prelude.{◌≡◌, ◌≤◌, length};

// Up to eight numbers, one for each phase of an actor: times, or rates of a channel's end. An array with its length: rows
// are copied, which a `Vec` does not do without memory, nor an `ArrayVec` at all.
#[derive(Clone, Copy)]
pub struct Phases {
    pub(crate) count: usize,
    pub(crate) values: [u32; 8],
    ghost few: { count ≤ 8 },
    ghost whole: { length values ≡ 8 },
}

// Where an actor may run: on any processor, or on the one named. An enum and no `Option`, by a rule of this project.
#[derive(Clone, Copy, PartialEq, Eq, Debug)]
pub enum Placement {
    Free,
    Pinned(u32),
}

#[derive(Clone, Copy)]
pub struct Actor {
    pub times: Phases,
    pub not_before: Option<u32>,
    pub placement: Placement,
}

#[derive(Clone, Copy)]
pub struct Channel {
    pub writer: usize,
    pub reader: usize,
    pub writes: Phases,
    pub reads: Phases,
    pub ceiling: Option<u32>,
}

// The values of an actor that is to be made.
#[derive(Clone, Copy)]
pub struct NewActor<'a> {
    pub times: &'a [u32],
    pub not_before: Option<u32>,
    pub placement: Placement,
}

// The values of a channel that is to be made.
#[derive(Clone, Copy)]
pub struct NewChannel<'a> {
    pub writer: usize,
    pub reader: usize,
    pub writes: &'a [u32],
    pub reads: &'a [u32],
    pub ceiling: Option<u32>,
}
