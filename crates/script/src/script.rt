// A script: the mark of its draft, and its calls, one a line.
ghost use Rattle.std.specs.Prelude.{◌≡◌};
ghost use Rattle.tokens.specs.Lines.{tokens_of};
ghost use Rattle.script.specs.Reads.{ReadsAll};
ghost use Rattle.script.specs.Rest.{rest_of};
ghost use Rattle.script.specs.Scripts.{finished, line_of, may_mark, mark_line, call_line, script_of, numbered};
ghost use Rattle.script.specs.Whole.{plain_script, sofar_of, after, ReadsAt};

use crate::line::Line;
use crate::parser::call;
use session::calls::Call;
use std::alloc::Global;
use tokens::expected::{Expected, LineError, ScriptError};
use tokens::lexer::tokens;
use tokens::token::Token;

const LINE_FEED: u8 = b'\n';

#[derive(Drop)]
pub struct Script {
    // The mark of the draft.
    pub mark: u32,
    pub calls: Vec<Call>,
}

// What the lines so far give.
#[derive(Drop)]
struct Reader {
    mark: Option<u32>,
    calls: Vec<Call>,
}

// Reads the whole text.
pub fn parse(heap: Global, text: &[u8]) -> Result<Script, ScriptError>
    ensures { ReadsAt plain_script result (script_of text.now) }
{
    let mut reader = Reader {
        mark: None,
        calls: Vec::new(heap),
    };
    for (i, line) in text.split(|b| *b == LINE_FEED).enumerate() {
        reader.read_at(heap, i + 1, line)?;
    }
    Ok(reader.finish())
}

impl Reader {
    fn finish(self) -> Script
        ensures { plain_script result ≡ finished (sofar_of self) }
    {
        Script {
            mark: self.mark.unwrap_or(0),
            calls: self.calls,
        }
    }

    // Reads the line of this number.
    fn read_at(&mut self, heap: Global, number: usize, line: &[u8]) -> Result<(), ScriptError>
        ensures { ReadsAt (λ _. sofar_of self.new) result (numbered number (line_of (sofar_of self.old) (tokens_of line.now))) }
    {
        self.read(heap, line).map_err(|error| error.at(number))
    }

    fn read(&mut self, heap: Global, line: &[u8]) -> Result<(), LineError>
        ensures { ReadsAll (λ _. sofar_of self.new) result (line_of (sofar_of self.old) (tokens_of line.now)) }
    {
        let words = tokens(heap, line)?;
        match words.as_slice() {
            [] => Ok(()),
            [Token::Mark, rest @ ..] => Ok(self.read_mark(Line { rest })?),
            words => self.read_call(heap, words),
        }
    }

    // No mark is given yet, and no call.
    fn may_mark(&self) -> bool
        ensures { result ≡ may_mark (sofar_of self.now) }
    {
        self.mark.is_none() && self.calls.is_empty()
    }

    // Reads what follows `mark`, which may stand once, before the first call.
    fn read_mark(&mut self, mut line: Line) -> Result<(), Expected>
        ensures { after result (sofar_of self.new) ≡ mark_line (sofar_of self.old) (rest_of line.entry) }
    {
        if !self.may_mark() {
            return Err(Expected::OneMark);
        }
        let mark = line.number_after(Token::Mark)?;
        line.end()?;
        self.mark = Some(mark);
        Ok(())
    }

    fn read_call(&mut self, heap: Global, words: &[Token]) -> Result<(), LineError>
        ensures { ReadsAll (λ _. sofar_of self.new) result (call_line (sofar_of self.old) words.now) }
    {
        let call = call(heap, self.mark.unwrap_or(0), words)?;
        self.calls.push(call)?;
        Ok(())
    }
}
