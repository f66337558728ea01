// Edits a draft by hand: each change is kept where its edits are accepted, and withdrawn where one is refused.

#![tactic(auto)]

ghost use Rattle.std.specs.Prelude.{◌≡◌, true, false, None, Err, MatchResult};
ghost use Rattle.rows.specs.Steps.{Does};
ghost use Rattle.rows.specs.declared.fault.Fault.TheVariants.{ChangeOpen};
ghost use Rattle.rows.specs.Table.{actor_with, add_actor};
ghost use Rattle.rows.specs.declared.row.Placement.TheVariants.{Free};
ghost use Rattle.draft.specs.Book.{editing};
ghost use Rattle.draft.specs.Drafts.{book_of};

use draft::draft::Draft;
use rows::fault::Fault;
use rows::row::{NewActor, Placement};

// An actor that may run on any processor, from tick 0 on.
const FREE: NewActor<'static> = NewActor {
    times: &[],
    not_before: None,
    placement: Placement::Free,
};

// Adds a free actor under a change of its own. Where the row is refused, the change is withdrawn.
fn add_actor(draft: &mut Draft, times: &[u32]) -> Result<usize, Fault>
    ensures answered { (book_of draft.old).changing ≡ false → Does (add_actor (actor_with times.now None Free)) (book_of draft.old).standing (book_of draft.new).standing result }
    ensures waits { (book_of draft.old).changing ≡ true → result ≡ Err ChangeOpen }
    ensures undone { MatchResult result
        (λ _. (book_of draft.new).standing ≡ (add_actor (actor_with times.now None Free)).made (book_of draft.old).standing)
        (λ _. book_of draft.new ≡ book_of draft.old) }
{
    let ticket = draft.open()?;
    let answer = draft.edit(&ticket, NewActor { times, ..FREE });
    match answer {
        Ok(_) => draft.keep(ticket).unwrap(),
        Err(_) => draft.withdraw(ticket).unwrap(),
    }
    answer
}

// Shows a draft the ticket of another draft's change: refused where their marks differ.
// The change is withdrawn, so the other draft keeps the rows that stood.
fn show_elsewhere(draft: &mut Draft, other: &mut Draft, times: &[u32]) -> Result<usize, Fault>
    ensures answered { (book_of other.old).changing ≡ false → Does (editing (book_of other.old).mark (add_actor (actor_with times.now None Free))) (book_of draft.old) (book_of draft.new) result }
    ensures waits { (book_of other.old).changing ≡ true → result ≡ Err ChangeOpen }
    ensures undone { (book_of other.new).standing ≡ (book_of other.old).standing }
{
    let ticket = other.open()?;
    let answer = draft.edit(&ticket, NewActor { times, ..FREE });
    other.withdraw(ticket).unwrap();
    answer
}

fn main(rt: HostRuntime) -> anyhow::Result<()> {
    let mut draft = Draft::new(rt.alloc(), 7)?;
    let first = add_actor(&mut draft, &[3, 1, 1]);
    let second = add_actor(&mut draft, &[0]);
    let mut other = Draft::new(rt.alloc(), 8)?;
    let third = show_elsewhere(&mut draft, &mut other, &[1]);
    let rows = draft.rows().actors().len();
    println!(rt; "{rows} row")?;
    // The number of each added actor, or the refusal.
    for answer in [first, second, third] {
        match answer {
            Ok(number) => println!(rt; "actor {number}")?,
            Err(fault) => println!(rt; "refused {fault}")?,
        }
    }
    Ok(())
}
