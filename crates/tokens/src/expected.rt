// Why a line is no call, and why a text is no script.
ghost use Rattle.std.specs.Prelude.{◌≡◌, Some};
ghost use Rattle.tokens.specs.Messages.{expected_text, error_at, error_text};
ghost use Rattle.tokens.specs.declared.expected.ReadError.TheVariants as error;

use crate::token::Token;
use std::alloc::{AllocError, AllocFailed};
use std::fmt;

// What stands first where a line is no call.
#[derive(Clone, Copy, Debug)]
pub enum Expected {
    // A word that begins a line.
    Call,
    // A call that shows a ticket.
    Shown,
    // The kind of row to cut.
    Kind,
    // This word.
    Word(Token),
    // A number, after this word.
    NumberAfter(Token),
    // No more words.
    LineEnd,
    // No `mark` after another one, or after a call.
    OneMark,
}

// Why a line or a text is not read: the error that `?` makes of want of memory and of what was expected.
#[derive(Clone, Copy, Debug)]
pub enum ReadError<E> {
    NoMemory,
    // What was expected where something else stands.
    NoCall(E),
}

pub type LineError = ReadError<Expected>;

pub type ScriptError = ReadError<ExpectedAt>;

// What was expected, in a line of a text. Lines are counted from 1.
#[derive(Clone, Copy, Debug)]
pub struct ExpectedAt {
    pub line: usize,
    pub expected: Expected,
}

impl<E> From<AllocError> for ReadError<E> {
    ghost from_gives = { λ _ r. r ≡ error.NoMemory };

    fn from(_error: AllocError) -> ReadError<E> {
        ReadError::NoMemory
    }
}

impl<T: Drop, E> From<AllocFailed<T>> for ReadError<E> {
    ghost from_gives = { λ _ r. r ≡ error.NoMemory };

    fn from(_error: AllocFailed<T>) -> ReadError<E> {
        ReadError::NoMemory
    }
}

impl From<Expected> for LineError {
    ghost from_gives = { λ e r. r ≡ error.NoCall e };

    fn from(expected: Expected) -> LineError {
        ReadError::NoCall(expected)
    }
}

impl LineError {
    // The error, in the line of this number.
    pub fn at(self, line: usize) -> ScriptError
        ensures { result ≡ error_at line self }
    {
        match self {
            ReadError::NoMemory => ReadError::NoMemory,
            ReadError::NoCall(expected) => ReadError::NoCall(ExpectedAt { line, expected }),
        }
    }
}

impl fmt::Display for Expected {
    ghost output = { λ e. Some (expected_text e) };

    fn fmt<W: fmt::Write>(&self, f: &mut fmt::Formatter<W>) -> fmt::Result {
        match self {
            Expected::Call => f.write_str("a call"),
            Expected::Shown => f.write_str(
                "'actor', 'channel', 'cut', 'keep' or 'withdraw' after the ticket",
            ),
            Expected::Kind => f.write_str("'actor' or 'channel' after 'cut'"),
            Expected::Word(word) => write!(f, "'{word}'"),
            Expected::NumberAfter(word) => write!(f, "a number after '{word}'"),
            Expected::LineEnd => f.write_str("the end of the line"),
            Expected::OneMark => f.write_str("'mark' only once, before the first call"),
        }
    }
}

impl fmt::Display for ScriptError {
    ghost output = { λ e. Some (error_text e) };

    fn fmt<W: fmt::Write>(&self, f: &mut fmt::Formatter<W>) -> fmt::Result {
        match self {
            ReadError::NoMemory => f.write_str("no memory"),
            ReadError::NoCall(ExpectedAt { line, expected }) => {
                write!(f, "line {line}: expected {expected}")
            }
        }
    }
}
