// The entries of a loop (document 02, point 9): asked of the facts before the loop and at its body's end, assumed at its head.
ghost use Rattle.std.specs.Prelude.{true, cond, ◌≡◌, ◌^◌, ◌<◌, ◌≤◌, length};
ghost use Rattle.facts.specs.Store.{added};
ghost use Rattle.listed.specs.Entries.{belongs, entry_at, entries_of};
ghost use Rattle.rules.specs.Stored.{entries_unshown, entry_facts};
ghost use Rattle.rules.specs.Verdict.{verdict_of};
ghost use Rattle.effects.specs.Entries.{entry_shown, first_unshown};

use answers::refusals::Refusal;
use arrays::lowest;
use chains::shown::shows;
use facts::FactSet;
use listed::{belongs, entry_at, entry_count};

// The entry e is shown, or belongs to another loop.
fn entry_shown(listed: &[i32], at: usize, e: usize, facts: FactSet) -> bool
    requires { (e < 2 ^ 40) × (at < 2 ^ 40) }
    ensures { result ≡ entry_shown listed.now at facts e }
{
    if !belongs(listed, at, e) {
        return true;
    }
    let entry = entry_at(listed, e);
    shows(facts, entry.left, entry.right, entry.offset)
}

// The first entry of the loop that is not shown, else the number of entries.
fn first_unshown(listed: &[i32], at: usize, facts: FactSet) -> usize
    requires { (length listed.now ≤ 1024) × (at < 2 ^ 40) }
    ensures { result ≡ first_unshown listed.now at facts }
{
    lowest(entry_count(listed), |e| !entry_shown(listed, at, e, facts))
}

// All entries of the loop at `at` are asked of the facts.
pub fn check_entries(listed: &[i32], at: usize, facts: FactSet) -> Result<(), Refusal>
    requires { (length listed.now ≤ 1024) × (at < 2 ^ 40) }
    ensures { result ≡ verdict_of (entries_unshown (entries_of listed.now at) facts) }
{
    let entry = first_unshown(listed, at, facts);
    if entry < entry_count(listed) {
        return Err(Refusal::LoopFact(entry));
    }
    Ok(())
}

// The facts with the entry e, where it belongs to the loop.
fn assume_entry(listed: &[i32], at: usize, e: usize, facts: FactSet) -> FactSet
    requires { (e < 2 ^ 40) × (at < 2 ^ 40) }
    ensures { result ≡ cond (belongs listed.now at e) (added facts (entry_at listed.now e).left (entry_at listed.now e).right
        (entry_at listed.now e).offset) facts }
{
    if !belongs(listed, at, e) {
        return facts;
    }
    let entry = entry_at(listed, e);
    facts.add(entry.left, entry.right, entry.offset)
}

// The facts with all entries of the loop at `at`.
pub fn assume_entries(listed: &[i32], at: usize, mut facts: FactSet) -> FactSet
    requires { (length listed.now ≤ 1024) × (at < 2 ^ 40) }
    ensures { result ≡ entry_facts (entries_of listed.now at) facts }
{
    for e in 0..entry_count(listed) {
        facts = assume_entry(listed, at, e, facts);
    }
    facts
}
