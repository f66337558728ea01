// The tokens of a line that are still to be read.
ghost use Rattle.std.specs.Prelude.{◌≡◌, IfOk};
ghost use Rattle.script.specs.Reading.{first_token, tail, starts, after_word, this_word, first_number, after_number, number_after, all_numbers, number_if, ended, with_rest};
ghost use Rattle.script.specs.Rest.{rest_of};

use std::alloc::{AllocError, Global};
use tokens::expected::Expected;
use tokens::token::Token;

#[derive(Clone, Copy)]
pub(crate) struct Line<'a> {
    pub(crate) rest: &'a [Token],
}

impl<'a> Line<'a> {
    // Passes over the word, if it comes next.
    pub(crate) fn accept(&mut self, keyword: Token) -> bool
        ensures value { result ≡ starts keyword (rest_of self.old) }
        ensures after { rest_of self.new ≡ after_word keyword (rest_of self.old) }
    {
        match self.rest {
            [first, rest @ ..] if first.is(keyword) => {
                self.rest = rest;
                true
            }
            _ => false,
        }
    }

    // Reads the word that comes next, if one is left.
    pub(crate) fn next(&mut self) -> Option<Token>
        ensures value { result ≡ first_token (rest_of self.old) }
        ensures after { rest_of self.new ≡ tail (rest_of self.old) }
    {
        let (first, rest) = self.rest.split_first()?;
        self.rest = rest;
        Some(*first)
    }

    // Passes over the word, which has to come next.
    pub(crate) fn word(&mut self, keyword: Token) -> Result<(), Expected>
        ensures { with_rest result (rest_of self.new) ≡ this_word keyword (rest_of self.old) }
    {
        if self.accept(keyword) {
            Ok(())
        } else {
            Err(Expected::Word(keyword))
        }
    }

    // Reads a number, if one comes next.
    pub(crate) fn number(&mut self) -> Option<u32>
        ensures value { result ≡ first_number (rest_of self.old) }
        ensures after { rest_of self.new ≡ after_number (rest_of self.old) }
    {
        let (first, rest) = self.rest.split_first()?;
        let number = first.number()?;
        self.rest = rest;
        Some(number)
    }

    // Reads a number, which has to come next.
    pub(crate) fn number_after(&mut self, keyword: Token) -> Result<u32, Expected>
        ensures { with_rest result (rest_of self.new) ≡ number_after keyword (rest_of self.old) }
    {
        self.number().ok_or(Expected::NumberAfter(keyword))
    }

    // Reads all the numbers that come next.
    pub(crate) fn numbers(&mut self, heap: Global) -> Result<Vec<u32>, AllocError>
        ensures { IfOk result (λ v. (v.items, rest_of self.new) ≡ all_numbers (rest_of self.old)) }
    {
        let mut all = Vec::new(heap);
        // By a loop: of what a closure gives that alters the line, a proof knows nothing.
        while let Some(n) = self.number() {
            all.push(n)?;
        }
        Ok(all)
    }

    // Reads a number after this word, if the word comes next.
    pub(crate) fn number_if(&mut self, keyword: Token) -> Result<Option<u32>, Expected>
        ensures { with_rest result (rest_of self.new) ≡ number_if keyword (rest_of self.old) }
    {
        if self.accept(keyword) {
            Ok(Some(self.number_after(keyword)?))
        } else {
            Ok(None)
        }
    }

    // No word is left.
    pub(crate) fn end(self) -> Result<(), Expected>
        ensures { result ≡ ended (rest_of self.entry) }
    {
        if self.rest.is_empty() {
            Ok(())
        } else {
            Err(Expected::LineEnd)
        }
    }
}
