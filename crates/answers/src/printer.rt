// The lines that answers are printed as.
ghost use Rattle.std.specs.Prelude.{◌≡◌, ◌++◌, map, IfOk, Ok, Some, codes, string_bytes, OnOk};
ghost use Rattle.std.specs.List.{flat_map};
ghost use Rattle.table.specs.Tables.{table_of};
ghost use Rattle.rows.specs.Values.{actor_row, channel_row};
ghost use Rattle.session.specs.Calls.{said_of};
ghost use Rattle.answers.specs.Adds.{adds_rows};
ghost use Rattle.script.specs.Scripts.{script_of};
ghost use Rattle.answers.specs.Texts.{answer_text, actor_text, channel_text, table_text, spaced_text, option_text};

use rows::row::{Actor, Channel};
use session::calls::Answer;
use std::alloc::{AllocError, Global};
use std::fmt;
use table::storage::Rows;

// The text of all the answers.
pub fn answers_text(heap: Global, answers: &[Answer]) -> Result<String, AllocError>
    ensures { IfOk result (λ text. string_bytes text ≡ flat_map answer_text (map said_of answers.now)) }
{
    let mut out = String::new(heap);
    for answer in answers {
        push_answer(&mut out, answer)?;
    }
    Ok(out)
}

// Adds the line of an answer, or the lines of the rows that it gives.
pub fn push_answer(out: &mut String, answer: &Answer) -> Result<(), AllocError>
    ensures { OnOk result (string_bytes out.new ≡ string_bytes out.old ++ answer_text (said_of answer.now)) }
{
    match answer {
        Answer::Done => writeln!(out, "ok"),
        Answer::Actor(number) => writeln!(out, "actor {number}"),
        Answer::Channel(number) => writeln!(out, "channel {number}"),
        Answer::Refused(fault) => writeln!(out, "refused {fault}"),
        Answer::Rows(rows) => push_rows(out, rows),
    }
}

// Each actor and then each channel, as the line that adds it: the lines can be read back as a script.
#[tactic(auto, using(crate::proofs::ReadBack::rows_read_back))]
pub fn push_rows(out: &mut String, rows: &Rows) -> Result<(), AllocError>
    ensures text { OnOk result (string_bytes out.new ≡ string_bytes out.old ++ table_text (table_of rows.now)) }
    ensures reads_back { script_of (table_text (table_of rows.now)) ≡ Ok (adds_rows (table_of rows.now)) }
{
    for actor in rows.actors() {
        write!(out, "{}", ActorLine(actor))?;
    }
    for channel in rows.channels() {
        write!(out, "{}", ChannelLine(channel))?;
    }
    Ok(())
}

// The line that adds an actor.
#[derive(Drop)]
struct ActorLine<'a>(&'a Actor);

impl fmt::Display for ActorLine<'_> {
    ghost output = { λ l. Some (actor_text (actor_row l.0.now)) };

    fn fmt<W: fmt::Write>(&self, f: &mut fmt::Formatter<W>) -> fmt::Result {
        let actor = self.0;
        let times = Numbers(actor.times.as_slice());
        let not_before = Part {
            name: "not-before",
            number: actor.not_before,
        };
        let pin = Part {
            name: "pin",
            number: actor.placement.pin(),
        };
        writeln!(f, "actor times{times}{not_before}{pin}")
    }
}

// The line that adds a channel.
#[derive(Drop)]
struct ChannelLine<'a>(&'a Channel);

impl fmt::Display for ChannelLine<'_> {
    ghost output = { λ l. Some (channel_text (channel_row l.0.now)) };

    fn fmt<W: fmt::Write>(&self, f: &mut fmt::Formatter<W>) -> fmt::Result {
        let channel = self.0;
        let writes = Numbers(channel.writes.as_slice());
        let reads = Numbers(channel.reads.as_slice());
        let ceiling = Part {
            name: "ceiling",
            number: channel.ceiling,
        };
        writeln!(
            f,
            "channel {} {} writes{writes} reads{reads}{ceiling}",
            channel.writer, channel.reader
        )
    }
}

// Each number after a space.
#[derive(Drop)]
struct Numbers<'a>(&'a [u32]);

impl fmt::Display for Numbers<'_> {
    ghost output = { λ ns. Some (flat_map spaced_text ns.0.now) };

    fn fmt<W: fmt::Write>(&self, f: &mut fmt::Formatter<W>) -> fmt::Result {
        for number in self.0 {
            write!(f, " {number}")?;
        }
        Ok(())
    }
}

// A name and a number, each after a space, if there is a number.
#[derive(Drop)]
struct Part<'a> {
    name: &'a str,
    number: Option<u32>,
}

impl fmt::Display for Part<'_> {
    ghost output = { λ p. Some (option_text (codes " " ++ (p.name.now ++ codes " ")) p.number) };

    fn fmt<W: fmt::Write>(&self, f: &mut fmt::Formatter<W>) -> fmt::Result {
        match self.number {
            Some(number) => write!(f, " {} {number}", self.name),
            None => Ok(()),
        }
    }
}
