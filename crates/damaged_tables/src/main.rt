// Loads a table of words damaged in every way, a word at a time, and prints each answer as `number@place`: the refusal,
// or 0 and the number of words where the load is granted.

#![tactic(auto)]

ghost use Rattle.std.specs.Prelude.{◌≡◌, ◌++◌, ◌∷◌, Some, length, OnOk, string_bytes};
ghost use Rattle.rows.specs.Steps.{Does};
ghost use Rattle.rows.specs.Table.{empty_table};
ghost use Rattle.table.specs.Tables.{table_of};
ghost use Rattle.words.specs.Loads.{loading, table_read};
ghost use Rattle.damaged_tables.specs.Told.{told_of, answer_text, pair_text};

use rows::fault::Refusal;
use std::alloc::{AllocError, Global};
use std::fmt;
use table::storage::Rows;
use word_save::save::{save, saved};
use words::fault::LoadFault;
use words::load::load;
use words::word::{CONTENTS, Kind};

// Actors and channels with and without each part that they may have.
const TABLE: [u32; 30] = [
    0x1_0000003,
    0x3_0000003,
    0x3_0000001,
    0x3_0000001,
    0x4_0000005,
    0x1_0000002,
    0x3_0000002,
    0x3_0000004,
    0x5_0000001,
    0x1_0000001,
    0x3_0000005,
    0x4_0000000,
    0x5_000000f,
    0x1_0000001,
    0x3_0000001,
    0x2_0230100,
    0x3_0000001,
    0x3_0000000,
    0x3_0000000,
    0x3_0000001,
    0x3_0000001,
    0x2_0120201,
    0x3_0000001,
    0x3_0000001,
    0x3_0000003,
    0x6_0000007,
    0x2_0110203,
    0x3_00000ff,
    0x3_0000009,
    0x7_000001d,
];

// One word more than the table takes.
const ROOM: usize = TABLE.len() + 1;

// The answer to a load of these words into a table without rows.
fn told(rows: &mut Rows, words: &[u32]) -> Result<usize, LoadFault>
    ensures { Does (loading words.now) empty_table (table_of rows.new) result }
{
    rows.clear();
    load(rows, words)
}

// The number of words that are loaded or saved, or the number and the place of the refusal.
#[derive(Clone, Copy)]
struct Answer<F: Refusal>(Result<usize, F>);

impl<F: Refusal> fmt::Display for Answer<F> {
    ghost output = { λ answer. Some (answer_text F.number_and_place answer.0) };

    fn fmt<W: fmt::Write>(&self, f: &mut fmt::Formatter<W>) -> fmt::Result {
        let (number, place) = match &self.0 {
            Ok(count) => (0, *count),
            Err(refusal) => (refusal.number(), refusal.place()),
        };
        write!(f, "{number}@{place}")
    }
}

// The rows that tables are loaded into, and the text of the answers.
#[derive(Drop)]
struct Trials {
    heap: Global,
    rows: Rows,
    text: String,
}

impl Trials {
    fn new(heap: Global) -> Result<Trials, AllocError> {
        let rows = Rows::new(heap)?;
        let text = String::new(heap);
        Ok(Trials { heap, rows, text })
    }

    // Adds the answer to a load of these words to a line.
    fn show(&mut self, words: &[u32]) -> Result<(), AllocError>
        ensures { OnOk result
            (string_bytes self.new.text ≡ string_bytes self.old.text ++ 32 ∷ pair_text (told_of (table_read words.now) (length words.now))) }
    {
        let answer = Answer(told(&mut self.rows, words));
        write!(self.text, " {answer}")
    }

    // The same of the table with this damage.
    fn show_damaged<F: FnOnce(&mut [u32; 30])>(&mut self, damage: F) -> Result<(), AllocError>
        requires { F.IsAlwaysCallable damage }
    {
        let mut words = TABLE;
        damage(&mut words);
        self.show(&words)
    }

    // The table cut short at each word.
    fn cut_short(&mut self) -> Result<(), AllocError> {
        self.text.push_str("cut short")?;
        for count in 0..=TABLE.len() {
            self.show(&TABLE[..count])?;
        }
        self.text.push_str("\n")
    }

    // A line for each place: the table with the word there changed in so many ways. The change takes any two numbers.
    fn each_place<F: Fn(u32, u32) -> u32>(
        &mut self,
        name: &str,
        ways: u32,
        change: F,
    ) -> Result<(), AllocError>
        requires { F.IsAlwaysCallable change }
    {
        for place in 0..TABLE.len() {
            self.text.push_str(name)?;
            for way in 0..ways {
                self.show_damaged(|words| words[place] = change(words[place], way))?;
            }
            self.text.push_str("\n")?;
        }
        Ok(())
    }

    // Each kind in each place.
    fn other_kinds(&mut self) -> Result<(), AllocError> {
        self.each_place("kinds", 16, |word, kind| {
            kind % 16 * CONTENTS + word % CONTENTS
        })
    }

    // Each bit of each content turned.
    fn turned_bits(&mut self) -> Result<(), AllocError> {
        self.each_place("bits", 28, |word, bit| word ^ (1 << (bit % 28)))
    }

    // Each word one lower, and one higher.
    fn off_by_one(&mut self) -> Result<(), AllocError> {
        self.text.push_str("off by one")?;
        for place in 0..TABLE.len() {
            self.show_damaged(|words| words[place] = words[place].wrapping_sub(1))?;
            self.show_damaged(|words| words[place] = words[place].wrapping_add(1))?;
        }
        self.text.push_str("\n")
    }

    // Each word exchanged with the next.
    fn exchanged(&mut self) -> Result<(), AllocError> {
        self.text.push_str("exchanged")?;
        for next in 1..TABLE.len() {
            self.show_damaged(|words| words.swap(next - 1, next))?;
        }
        self.text.push_str("\n")
    }

    // Each word left out, and each word twice.
    fn left_out_and_doubled(&mut self) -> Result<(), AllocError> {
        self.text.push_str("left out and doubled")?;
        for (place, word) in TABLE.iter().enumerate() {
            let mut words = TABLE.to_vec(self.heap)?;
            words.remove(place);
            self.show(&words)?;
            let mut words = TABLE.to_vec(self.heap)?;
            words.insert(place, *word)?;
            self.show(&words)?;
        }
        self.text.push_str("\n")
    }

    // As many rows as there may be, and one more; and each table that is loaded saved again.
    fn many_rows(&mut self) -> Result<(), AllocError> {
        let sizes = [
            (64, 0, 1),
            (65, 0, 1),
            (64, 128, 1),
            (64, 129, 1),
            (64, 128, 8),
        ];
        self.text.push_str("many rows")?;
        for (actors, channels, phases) in sizes {
            let words = regular(self.heap, actors, channels, phases)?;
            self.show(&words)?;
            let again = saved(self.heap, &self.rows)?;
            self.text
                .push_str(if again == words { " same" } else { " other" })?;
        }
        self.text.push_str("\n")
    }

    // The table saved into one word too few, into as many as it takes, and into one more, which is left alone.
    fn into_space(&mut self) -> Result<(), AllocError> {
        self.text.push_str("into space")?;
        self.show(&TABLE)?;
        for space in TABLE.len() - 1..=TABLE.len() + 1 {
            let mut words = [9; ROOM];
            let answer = Answer(save(&self.rows, &mut words[..space]));
            let (first, last) = (words[0], words[TABLE.len()]);
            write!(self.text, " {answer} first {first} last {last}")?;
        }
        self.text.push_str("\n")
    }
}

// A table of so many actors and channels, each of so many phases, with every part that a row may have where it has eight.
fn regular(heap: Global, actors: u32, channels: u32, phases: u32) -> Result<Vec<u32>, AllocError> {
    let mut words = Vec::new(heap);
    for _ in 0..actors {
        words.push(word(Kind::Actor, phases))?;
        for _ in 0..phases {
            words.push(word(Kind::Number, 1))?;
        }
        if phases == 8 {
            words.push(word(Kind::NotBefore, 0))?;
            words.push(word(Kind::Pin, 0))?;
        }
    }
    for _ in 0..channels {
        words.push(word(Kind::Channel, 0x100 | phases.wrapping_mul(0x11_0000)))?;
        for _ in 0..phases {
            words.push(word(Kind::Number, 1))?;
            words.push(word(Kind::Number, 1))?;
        }
        if phases == 8 {
            words.push(word(Kind::Ceiling, 1))?;
        }
    }
    let count = words.len() % CONTENTS as usize;
    words.push(word(Kind::End, count as u32))?;
    Ok(words)
}

// A word of this kind, with the bits of this content, which may be any.
fn word(kind: Kind, content: u32) -> u32 {
    kind as u32 * CONTENTS | content
}

fn main(rt: HostRuntime) -> anyhow::Result<()> {
    let mut trials = Trials::new(rt.alloc())?;
    trials.cut_short()?;
    trials.other_kinds()?;
    trials.turned_bits()?;
    trials.off_by_one()?;
    trials.exchanged()?;
    trials.left_out_and_doubled()?;
    trials.many_rows()?;
    trials.into_space()?;
    print!(rt; "{}", trials.text)?;
    Ok(())
}
