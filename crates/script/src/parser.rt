// The call that a line makes.
ghost use Rattle.std.specs.Prelude.{◌≡◌};
ghost use Rattle.script.specs.Grammar.{actor_rest, channel_rest, cut_rest, edit_rest, shown_rest, call_rest, call_of};
ghost use Rattle.script.specs.Plain.{plain_edit, plain_call};
ghost use Rattle.script.specs.Reads.{Reads, ReadsAll};
ghost use Rattle.script.specs.Rest.{rest_of};

use crate::line::Line;
use rows::row::Placement;
use session::calls::{Call, Edit, Ending};
use std::alloc::Global;
use tokens::expected::{Expected, LineError};
use tokens::token::Token;

// The call of a line that is not empty; where it shows no ticket, it shows one of this mark.
pub fn call(heap: Global, mark: u32, tokens: &[Token]) -> Result<Call, LineError>
    ensures { ReadsAll plain_call result (call_of mark tokens.now) }
{
    let mut line = Line { rest: tokens };
    let call = read_call(heap, mark, &mut line)?;
    line.end()?;
    Ok(call)
}

fn read_call(heap: Global, mark: u32, line: &mut Line) -> Result<Call, LineError>
    ensures { Reads plain_call result (rest_of line.new) (call_rest mark (rest_of line.old)) }
{
    // By tries: where no word fits, none is passed over.
    if line.accept(Token::Open) {
        Ok(Call::Open)
    } else if line.accept(Token::Rows) {
        Ok(Call::Rows)
    } else if line.accept(Token::Ticket) {
        let shown = line.number_after(Token::Ticket)?;
        read_shown(heap, shown, line, Expected::Shown)
    } else {
        read_shown(heap, mark, line, Expected::Call)
    }
}

// A call that shows a ticket of this mark.
fn read_shown(
    heap: Global,
    shown: u32,
    line: &mut Line,
    expected: Expected,
) -> Result<Call, LineError>
    ensures { Reads plain_call result (rest_of line.new) (shown_rest shown expected (rest_of line.old)) }
{
    // By tries, as above.
    if line.accept(Token::Keep) {
        Ok(Call::End(shown, Ending::Keep))
    } else if line.accept(Token::Withdraw) {
        Ok(Call::End(shown, Ending::Withdraw))
    } else {
        let edit = read_edit(heap, line, expected)?;
        Ok(Call::Edit(shown, edit))
    }
}

fn read_edit(heap: Global, line: &mut Line, expected: Expected) -> Result<Edit, LineError>
    ensures { Reads plain_edit result (rest_of line.new) (edit_rest expected (rest_of line.old)) }
{
    match line.next() {
        Some(Token::Actor) => read_actor(heap, line),
        Some(Token::Channel) => read_channel(heap, line),
        Some(Token::Cut) => read_cut(line),
        _ => Err(LineError::NoCall(expected)),
    }
}

fn read_actor(heap: Global, line: &mut Line) -> Result<Edit, LineError>
    ensures { Reads plain_edit result (rest_of line.new) (actor_rest (rest_of line.old)) }
{
    line.word(Token::Times)?;
    let times = line.numbers(heap)?;
    let not_before = line.number_if(Token::NotBefore)?;
    let pin = line.number_if(Token::Pin)?;
    Ok(Edit::AddActor {
        times,
        not_before,
        placement: Placement::from(pin),
    })
}

fn read_channel(heap: Global, line: &mut Line) -> Result<Edit, LineError>
    ensures { Reads plain_edit result (rest_of line.new) (channel_rest (rest_of line.old)) }
{
    let writer = line.number_after(Token::Channel)?;
    let reader = line.number_after(Token::Channel)?;
    line.word(Token::Writes)?;
    let writes = line.numbers(heap)?;
    line.word(Token::Reads)?;
    let reads = line.numbers(heap)?;
    let ceiling = line.number_if(Token::Ceiling)?;
    Ok(Edit::AddChannel {
        writer: writer as usize,
        reader: reader as usize,
        writes,
        reads,
        ceiling,
    })
}

fn read_cut(line: &mut Line) -> Result<Edit, LineError>
    ensures { Reads plain_edit result (rest_of line.new) (cut_rest (rest_of line.old)) }
{
    match line.next() {
        Some(Token::Actor) => {
            let number = line.number_after(Token::Actor)?;
            Ok(Edit::CutActor(number as usize))
        }
        Some(Token::Channel) => {
            let number = line.number_after(Token::Channel)?;
            Ok(Edit::CutChannel(number as usize))
        }
        _ => Err(LineError::NoCall(Expected::Kind)),
    }
}
