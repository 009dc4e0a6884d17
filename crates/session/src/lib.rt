// What the program does with an input before it prints (document 01, "Quality figure and program"): the input is split at its first line that is just `%`,
// the text before it is opened, and the value lines are offered in turn. What carries the proofs: an input is a list of lines with their places, and
// each function here walks along that list.
#![tactic(auto)]

ghost use Rattle.std.specs.Prelude.{◌≡◌, true, [], ◌<◌, length, MatchOption};
ghost use Rattle.dimacs.specs.Lines.{lines_at};
ghost use Rattle.store.specs.Refusals.{said};
ghost use Rattle.store.specs.Stores.{closed_record, lent};
ghost use Rattle.standing.specs.Keyed.{keyed, well_formed, with_keys};
ghost use Rattle.session.specs.Input.{from_divider};
ghost use Rattle.session.specs.Session.{ended, offer_lines, divided, session_of};

use calls::Stored;
use store::record::Record;
use store::refusal::Refusal;

pub const MAX_INPUT: usize = 65536;

// The line between the formula text and the names line.
const DIVIDER: &[u8] = b"%";

// Opens and offers what an input states, in lent slices of any contents: all that was offered is accepted, or the first refusal is answered.
pub fn run(
    input: &[u8],
    literals: &mut [u16],
    ends: &mut [u16],
    keys: &mut [u64],
    images: &mut [u16],
) -> Stored<()>
    ensures ends { let s = with_keys (lent closed_record literals.old ends.old images.old) keys.old in
        let left = with_keys (lent result.counts literals.new ends.new images.new) keys.new in
        ended (said result.answer) left ≡ session_of s input.now }
    ensures formed { let left = with_keys (lent result.counts literals.new ends.new images.new) keys.new in
        (result.answer ≡ Ok tt → well_formed left ≡ true) }
{
    if MAX_INPUT < input.len() {
        return bad_input();
    }
    let Some(at) = divider(input) else {
        return bad_input();
    };
    open_and_offer(input, at, literals, ends, keys, images)
}

fn bad_input() -> Stored<()>
    ensures { result ≡ record { answer = Err Refusal.BadInput; counts = closed_record } }
{
    Stored {
        answer: Err(Refusal::BadInput),
        counts: calls::new_record(),
    }
}

// The start of the first line that is just `%`.
fn divider(input: &[u8]) -> Option<usize>
    ensures { MatchOption result (from_divider (lines_at input.now 0) ≡ [])
        (λ at. (at < length input.now) × (lines_at input.now at ≡ from_divider (lines_at input.now 0))) }
{
    // From line to line: where the next one starts is known once this one is read, so that no range counts the places.
    let mut at = 0;
    while at < input.len() {
        let end = dimacs::line_end(input, at);
        if &input[at..end] == DIVIDER {
            return Some(at);
        }
        at = end + 1;
    }
    None
}

// Opens the text before the `%` line at `at`, and offers the lines after it.
fn open_and_offer(
    input: &[u8],
    at: usize,
    literals: &mut [u16],
    ends: &mut [u16],
    keys: &mut [u64],
    images: &mut [u16],
) -> Stored<()>
    requires { at < length input.now }
    ensures { let s = with_keys (lent closed_record literals.old ends.old images.old) keys.old in
        let left = with_keys (lent result.counts literals.new ends.new images.new) keys.new in
        ended (said result.answer) left ≡ divided s input.now (lines_at input.now at) }
{
    let opened = calls::open(calls::new_record(), &input[..at], literals, ends, keys);
    let counts = opened.counts;
    // The record stands beside the answer, which no `?` passes up.
    if let Err(refusal) = opened.answer {
        return Stored {
            answer: Err(refusal),
            counts,
        };
    }
    offer_lines(
        counts,
        literals,
        ends,
        keys,
        images,
        input,
        dimacs::line_end(input, at) + 1,
    )
}

// Offers each value line; the names line starts at `at`.
fn offer_lines(
    counts: Record,
    literals: &[u16],
    ends: &[u16],
    keys: &[u64],
    images: &mut [u16],
    input: &[u8],
    at: usize,
) -> Stored<()>
    ensures { let s = with_keys (lent counts literals.now ends.now images.old) keys.now in
        let left = with_keys (lent result.counts literals.now ends.now images.new) keys.now in
        ended (said result.answer) left ≡ offer_lines s (lines_at input.now at) }
{
    if input.len() <= at {
        return Stored {
            answer: Ok(()),
            counts,
        };
    }
    let names = dimacs::line_end(input, at);
    let mut held = counts;
    // From line to line, as above.
    let mut from = names + 1;
    while from < input.len() {
        let to = dimacs::line_end(input, from);
        let offered = calls::offer(
            held,
            literals,
            ends,
            keys,
            images,
            &input[at..names],
            &input[from..to],
        );
        held = offered.counts;
        // The record beside the answer, as above.
        if let Err(refusal) = offered.answer {
            return Stored {
                answer: Err(refusal),
                counts: held,
            };
        }
        from = to + 1;
    }
    Stored {
        answer: Ok(()),
        counts: held,
    }
}
