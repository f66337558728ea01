// Loading and saving the rows of a table, with what either promises of the other.
ghost use Rattle.rows.specs.Steps.{Does};
ghost use Rattle.table.specs.Tables.{table_of};
ghost use Rattle.words.specs.Loads.{loading};
ghost use Rattle.word_save.specs.Saves.{saving};
ghost use Rattle.std.specs.Prelude.{true};
ghost use Rattle.word_laws.specs.Laws.{Loads, Saves};

use table::storage::Rows;
use word_save::fault::SaveFault;
use words::fault::LoadFault;

// Adds the rows of a whole table of words to a table without rows, and answers the number of words.
pub fn load(rows: &mut Rows, words: &[u32]) -> Result<usize, LoadFault>
    ensures loaded { Does (loading words.now) (table_of rows.old) (table_of rows.new) result }
    ensures laws { Loads true words.now (table_of rows.old) (table_of rows.new) result }
{
    words::load::load(rows, words)
}

// Writes the rows as a table of words, which takes the first of the words given.
pub fn save(rows: &Rows, out: &mut [u32]) -> Result<usize, SaveFault>
    ensures saved { Does (saving (table_of rows.now)) out.old out.new result }
    ensures laws { Saves (table_of rows.now) out.new result }
{
    word_save::save::save(rows, out)
}
