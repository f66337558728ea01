// Runs a script of calls from standard input on a new draft, and prints each answer.

#![tactic(auto)]

ghost use Rattle.std.specs.Prelude.{◌≡◌, IfOk, string_bytes};
ghost use Rattle.std.specs.List.{flat_map};
ghost use Rattle.draft.specs.Book.{new_book};
ghost use Rattle.session.specs.Calls.{answers};
ghost use Rattle.answers.specs.Texts.{answer_text};

#[cfg(test)]
mod tests;

use answers::printer::answers_text;
use anyhow::bail;
use script::script::{Script, parse};
use session::runs::run;
use std::alloc::{AllocError, Global};
use std::io::Read;

// The answers to a script, as text: those of the plain book of a new draft of the script's mark.
fn answered(heap: Global, script: &Script) -> Result<String, AllocError>
    ensures { IfOk result (λ text. string_bytes text ≡ flat_map answer_text (answers (new_book script.now.mark) script.now.calls.items)) }
{
    let outcome = run(heap, script.mark, &script.calls)?;
    answers_text(heap, &outcome.answers)
}

// Nothing is run unless every line is read, and nothing is printed unless every call is answered.
fn main(rt: HostRuntime) -> anyhow::Result<()> {
    let mut text = Vec::new(rt.alloc());
    rt.stdin().read_to_end(&mut text)?;
    let script = match parse(rt.alloc(), &text) {
        Ok(script) => script,
        Err(error) => {
            eprintln!(rt; "{error}")?;
            bail!("the script was not run");
        }
    };
    let answers = answered(rt.alloc(), &script)?;
    print!(rt; "{answers}")?;
    Ok(())
}
