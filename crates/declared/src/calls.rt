// A call: whether its arguments fit the callee (refusal 20).
ghost use Rattle.std.specs.Prelude.{◌≡◌};
ghost use Rattle.rules.specs.Calls.{argument, is_parameter, in_order, kind_fits, end_fits, argument_end, argument_bounds, last_integer, result_effect};
ghost use Rattle.rules.specs.Calls.{result_facts};
ghost use Rattle.rules.specs.Stored.{store, call_faults};
ghost use Rattle.rules.specs.Verdict.{environment_of, verdict_of};
ghost use Rattle.rules.specs.Sets.{routine_of};
ghost use Rattle.declared.specs.Callee.{kinds_as, callee_as, bounds_fit, argument_fits, arguments_fit};
ghost use Rattle.declared.specs.Callee.{kinds_of, signature_of, callees_in, call_checked};

use crate::check_effect;
use crate::ends::bounds_shown;
use answers::refusals::Refusal;
use bounds::KnownBounds;
use bounds::touched::Seen;
use facts::FactSet;
use parts::span_of;
use rules::lookups::{bounds_at, is_pointer, is_string};
use rules::{Bounds, Effect, read_declared, read_pointers, read_strings};
use statements::CallSite;
use table::sections_of;
use table::variables::End;
use words::sections::Sections;

// Which variables of the caller are pointers, and which of them are of kind 2.
#[derive(Clone, Copy)]
pub struct Kinds {
    pub pointers: [bool; 17],
    pub strings: [bool; 17],
}

// What a call asks of its callee: the number of its variables, their kinds, their own bounds.
#[derive(Clone, Copy)]
pub struct Signature {
    pub variables: usize,
    pub pointers: [bool; 17],
    pub strings: [bool; 17],
    pub declared: [Bounds; 16],
}

// The variable that the callee's variable j takes; 16 where it takes none.
pub fn argument(call: CallSite, j: usize) -> usize
    ensures { result ≡ argument call j }
{
    match j {
        0 => call.first,
        1 => call.second,
        2 => call.third,
        3 => call.fourth,
        _ => 16,
    }
}

fn is_parameter(call: CallSite, j: usize) -> bool
    ensures { result ≡ is_parameter call j }
{
    argument(call, j) != 16
}

// No argument follows a -1.
fn in_order(call: CallSite) -> bool
    ensures { result ≡ in_order call }
{
    (is_parameter(call, 0) | !is_parameter(call, 1))
        & (is_parameter(call, 1) | !is_parameter(call, 2))
        & (is_parameter(call, 2) | !is_parameter(call, 3))
}

// The caller's variable x and the callee's variable j are of one kind.
fn kind_fits(kinds: Kinds, x: usize, callee: Signature, j: usize) -> bool
    ensures { result ≡ kind_fits (kinds_as kinds) x (callee_as callee) j }
{
    (j < callee.variables)
        & (is_pointer(kinds.pointers, x) == is_pointer(callee.pointers, j))
        & (is_string(kinds.strings, x) == is_string(callee.strings, j))
}

// An end that names parameters only.
fn end_fits(call: CallSite, end: Option<End>) -> bool
    ensures { result ≡ end_fits call end }
{
    let Some(e) = end else {
        return false;
    };
    is_parameter(call, e.pointer) & ((e.integer == 16) | is_parameter(call, e.integer))
}

// An end with the arguments put in.
fn argument_end(call: CallSite, end: Option<End>) -> Option<End>
    ensures { result ≡ argument_end call end }
{
    let Some(e) = end else {
        return None;
    };
    Some(End {
        pointer: argument(call, e.pointer),
        integer: argument(call, e.integer),
        constant: e.constant,
    })
}

fn argument_bounds(call: CallSite, b: Bounds) -> Bounds
    ensures { result ≡ argument_bounds call b }
{
    Bounds {
        size: b.size,
        lower: argument_end(call, b.lower),
        upper: argument_end(call, b.upper),
    }
}

// The bounds of parameter j name parameters only, and the argument's known bounds show them.
fn bounds_fit(
    facts: FactSet,
    known: KnownBounds,
    callee: Signature,
    call: CallSite,
    j: usize,
) -> bool
    ensures { result ≡ bounds_fit facts known.each (callee_as callee) call j }
{
    let own = bounds_at(callee.declared, j);
    let x = argument(call, j);
    end_fits(call, own.lower)
        & end_fits(call, own.upper)
        & bounds_shown(
            facts,
            x,
            bounds_at(known.each, x),
            argument_bounds(call, own),
        )
}

// Where variable j of the callee is a parameter, the argument fits it.
fn argument_fits(
    kinds: Kinds,
    facts: FactSet,
    known: KnownBounds,
    callee: Signature,
    call: CallSite,
    j: usize,
) -> bool
    ensures { result ≡ argument_fits (kinds_as kinds) facts known.each (callee_as callee) call j }
{
    !is_parameter(call, j)
        | (kind_fits(kinds, argument(call, j), callee, j)
            & (!is_pointer(callee.pointers, j) | bounds_fit(facts, known, callee, call, j)))
}

// The callee's last variable is an integer.
fn last_integer(callee: Signature) -> bool
    ensures { result ≡ last_integer (callee_as callee) }
{
    !is_pointer(callee.pointers, callee.variables.saturating_sub(1))
}

// Refusal 20 does not refuse the call, where its callee has this signature.
pub fn arguments_fit(
    kinds: Kinds,
    facts: FactSet,
    known: KnownBounds,
    callee: Signature,
    call: CallSite,
) -> bool
    ensures { result ≡ arguments_fit (kinds_as kinds) facts known.each (callee_as callee) call }
{
    in_order(call)
        & last_integer(callee)
        & argument_fits(kinds, facts, known, callee, call, 0)
        & argument_fits(kinds, facts, known, callee, call, 1)
        & argument_fits(kinds, facts, known, callee, call, 2)
        & argument_fits(kinds, facts, known, callee, call, 3)
}

// What a call asks of the callee with this table.
fn read_signature(table: &[i32]) -> Signature
    ensures { result ≡ signature_of (routine_of table.now) }
{
    let sections = sections_of(table);
    Signature {
        variables: sections.variables,
        pointers: read_pointers(table, sections),
        strings: read_strings(table, sections),
        declared: read_declared(table, sections),
    }
}

fn read_kinds(table: &[i32], sections: Sections) -> Kinds
    ensures { result ≡ kinds_of (environment_of table.now sections) }
{
    Kinds {
        pointers: read_pointers(table, sections),
        strings: read_strings(table, sections),
    }
}

// Refusals 19 and 20 of the call at `at`, 19 first. `callees` are the lengths of the tables that may be called: they stand in `words`, one after the other.
fn check_callee(
    table: &[i32],
    sections: Sections,
    facts: FactSet,
    known: KnownBounds,
    words: &[i32],
    callees: &[u32],
    call: CallSite,
    at: usize,
) -> Result<(), Refusal>
    ensures { result ≡ verdict_of (call_faults (callees_in words.now callees.now)
        (environment_of table.now sections) at call facts known.each) }
{
    if call.callee >= 8 {
        return Err(Refusal::Callee(at));
    }
    let number = call.callee as usize;
    if number >= callees.len() {
        return Err(Refusal::Callee(at));
    }
    let span = span_of(callees, 1, 0, number, words.len());
    let callee = read_signature(&words[span.start..span.end]);
    if !arguments_fit(read_kinds(table, sections), facts, known, callee, call) {
        return Err(Refusal::Arguments(at));
    }
    Ok(())
}

fn result_effect(call: CallSite) -> Effect
    ensures { result ≡ result_effect call }
{
    let result = call.result;
    if result == 16 {
        return Effect::Keep;
    }
    Effect::Forget { target: result }
}

// The facts once the result is set.
pub fn drop_result(facts: FactSet, call: CallSite) -> FactSet
    ensures { result ≡ result_facts store call facts }
{
    let result = call.result;
    if result == 16 {
        return facts;
    }
    facts.drop(result)
}

// Refusals 19 and 20 of the call at `at`, then its own 8: the result counts as assigned.
pub fn check_call(
    table: &[i32],
    sections: Sections,
    seen: Seen,
    facts: FactSet,
    words: &[i32],
    callees: &[u32],
    call: CallSite,
    at: usize,
) -> Result<(), Refusal>
    ensures { result ≡ verdict_of (call_checked (callees_in words.now callees.now)
        (environment_of table.now sections) seen at call facts) }
{
    // A local: an array field that stands in a literal itself gets no generated proof.
    let declared = seen.declared;
    let known = KnownBounds { each: declared };
    let after = drop_result(facts, call);
    check_callee(table, sections, facts, known, words, callees, call, at)?;
    check_effect(seen, after, result_effect(call), at)
}
