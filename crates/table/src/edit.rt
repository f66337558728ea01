// An edit of the rows of a table: one of four steps, of whatever type.
ghost use Rattle.rows.specs.Steps.{Step, Does};
ghost use Rattle.rows.specs.Table.{Table};
ghost use Rattle.rows.specs.declared.fault.Fault.{Fault};
ghost use Rattle.table.specs.Edits.{EditOf};
ghost use Rattle.table.specs.Tables.{table_of};

use crate::storage::Rows;
use rows::fault::Fault;

// An edit is one of the four steps of a table, as `known` says.
pub trait Edit: Drop {
    // What it answers, where it is granted.
    type Answer;

    ghost step: { Self → Step Fault Table Self.Answer };

    // Makes the edit, or is refused and leaves the rows as they are.
    fn make(self, rows: &mut Rows) -> Result<Self::Answer, Fault>
        ensures { Does (step self) (table_of rows.old) (table_of rows.new) result };

    // The step is one of those that `EditOf` names: it adds or cuts an actor or a channel.
    ghost known: { (edit : Self) → EditOf Self.Answer (step edit) };
}

impl Rows {
    // Makes an edit.
    pub fn edit<E: Edit>(&mut self, edit: E) -> Result<E::Answer, Fault>
        ensures made { Does (E.step edit) (table_of self.old) (table_of self.new) result }
        ensures known { EditOf E.Answer (E.step edit) }
    {
        edit.make(self)
    }
}
