// Why a save is refused.
ghost use Rattle.std.specs.Prelude.{◌≡◌};
ghost use Rattle.word_save.specs.Faults.{shown_save};

use rows::fault::Refusal;

// Why rows are not saved, each case with the number by which the refusal is known.
#[derive(Clone, Copy, PartialEq, Eq, Debug)]
pub enum SaveFault {
    // There is space for fewer words than the rows take.
    SpaceShort = 27,
}

impl Refusal for SaveFault {
    ghost number_and_place = { shown_save };

    fn number(&self) -> u32 {
        *self as u32
    }

    // It names none.
    fn place(&self) -> usize {
        0
    }
}
