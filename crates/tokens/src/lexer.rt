// The words of a line.
ghost use Rattle.std.specs.Prelude.{◌≡◌, IfOk};
ghost use Rattle.tokens.specs.Lines.{tokens_of, blank};

use crate::token::Token;
use std::alloc::{AllocError, Global};

const COMMENT: u8 = b'#';

// The tokens of a line, to its end or to the sign of a comment.
pub fn tokens(heap: Global, line: &[u8]) -> Result<Vec<Token>, AllocError>
    ensures { IfOk result (λ v. v.items ≡ tokens_of line.now) }
{
    let mut all = Vec::new(heap);
    let mut rest = line;
    // By a loop, so that each byte is looked at once: a blank ends a word, and the sign ends the line too.
    while let [first, others @ ..] = rest {
        if *first == COMMENT {
            break;
        }
        if is_blank(*first) {
            rest = others;
        } else {
            let end = others
                .iter()
                .position(|b| is_blank(*b) || *b == COMMENT)
                .unwrap_or(others.len());
            let (word, left) = rest.split_at(end + 1);
            all.push(Token::from(word))?;
            rest = left;
        }
    }
    Ok(all)
}

// Words are separated by spaces, tabs and carriage returns.
fn is_blank(b: u8) -> bool
    ensures { result ≡ blank b }
{
    matches!(b, b' ' | b'\t' | b'\r')
}
