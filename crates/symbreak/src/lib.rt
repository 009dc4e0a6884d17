// The calls for C (include/symbreak.h): numbers and slices in, structs of numbers out. A slice passes as a pointer and a length.
#![tactic(auto)]

ghost use Rattle.std.specs.Prelude.{◌≡◌, [], length};
ghost use Rattle.store.specs.Refusals.{said};
ghost use Rattle.store.specs.Stores.{lent, closed_record};
ghost use Rattle.standing.specs.Keyed.{keyed, with_keys};
ghost use Rattle.calls.specs.Calls.{open_says, open_store, offer_says, offer_store, withdraw_says, withdraw_store};
ghost use Rattle.calls.specs.Calls.{figures_says, header_says, header_leaves, clause_says, clause_leaves};
ghost use Rattle.calls.specs.Calls.{fill_says, fill_leaves, said_finding, check_says, said_descent, descend_says, descend_leaves, compare_says, efficiency_says};
ghost use Rattle.symbreak.specs.Exports.{record_of, c_record, c_answer, c_checked, c_figures, c_descent, c_stored};

use calls::Stored;
use descent::Descended;
use measure::Figures;
use standing::Lent;
use store::record::Record;
use store::refusal::Refusal;

#[repr(C)]
#[derive(Clone, Copy)]
pub struct CRecord {
    pub variables: u64,
    pub clauses: u64,
    pub rows: u64,
    pub is_open: u64,
}

#[repr(C)]
#[derive(Clone, Copy)]
pub struct CStored {
    pub refusal: u32,
    pub place: u64,
    pub variables: u64,
    pub clauses: u64,
    pub rows: u64,
    pub is_open: u64,
}

#[repr(C)]
#[derive(Clone, Copy)]
pub struct CAnswer {
    pub refusal: u32,
    pub place: u64,
    pub value: u64,
}

#[repr(C)]
#[derive(Clone, Copy)]
pub struct CFigures {
    pub refusal: u32,
    pub place: u64,
    pub variables: u64,
    pub clauses: u64,
    pub literals: u64,
    pub bytes: u64,
}

#[repr(C)]
#[derive(Clone, Copy)]
pub struct CDescent {
    pub refusal: u32,
    pub place: u64,
    pub settled: u64,
    pub moves: u64,
}

#[unsafe(no_mangle)]
pub extern "C" fn symbreak_new_record() -> CRecord
    ensures { result ≡ c_record closed_record }
{
    CRecord::from(calls::new_record())
}

#[unsafe(no_mangle)]
pub extern "C" fn symbreak_open(
    variables: u64,
    clauses: u64,
    rows: u64,
    flag: u64,
    text: &[u8],
    literals: &mut [u16],
    ends: &mut [u16],
    keys: &mut [u64],
) -> CStored
    ensures says { let s = with_keys (lent (record_of variables clauses rows flag) literals.old ends.old []) keys.old in
        result ≡ c_stored (open_says s text.now) (open_store s text.now).store.counts }
    ensures literals { let s = with_keys (lent (record_of variables clauses rows flag) literals.old ends.old []) keys.old in
        literals.new ≡ (open_store s text.now).store.literals }
    ensures ends { let s = with_keys (lent (record_of variables clauses rows flag) literals.old ends.old []) keys.old in
        ends.new ≡ (open_store s text.now).store.ends }
    ensures keys { let s = with_keys (lent (record_of variables clauses rows flag) literals.old ends.old []) keys.old in
        keys.new ≡ (open_store s text.now).keys }
{
    let counts = record_of(variables, clauses, rows, flag);
    CStored::from(calls::open(counts, text, literals, ends, keys))
}

#[unsafe(no_mangle)]
pub extern "C" fn symbreak_offer(
    variables: u64,
    clauses: u64,
    rows: u64,
    flag: u64,
    literals: &[u16],
    ends: &[u16],
    keys: &[u64],
    images: &mut [u16],
    names: &[u8],
    values: &[u8],
) -> CStored
    ensures says { let s = with_keys (lent (record_of variables clauses rows flag) literals.now ends.now images.old) keys.now in
        let left = offer_store s names.now values.now in
        result ≡ c_stored (offer_says s names.now values.now) left.store.counts }
    ensures images { let s = with_keys (lent (record_of variables clauses rows flag) literals.now ends.now images.old) keys.now in
        images.new ≡ (offer_store s names.now values.now).store.images }
{
    let counts = record_of(variables, clauses, rows, flag);
    let stored = calls::offer(counts, literals, ends, keys, images, names, values);
    CStored::from(stored)
}

#[unsafe(no_mangle)]
pub extern "C" fn symbreak_withdraw(
    variables: u64,
    clauses: u64,
    rows: u64,
    flag: u64,
    literals: &[u16],
    ends: &[u16],
    keys: &[u64],
    images: &[u16],
) -> CStored
    ensures { let s = keyed (record_of variables clauses rows flag) literals.entry ends.entry keys.entry images.entry in
        result ≡ c_stored (withdraw_says s) (withdraw_store s).store.counts }
{
    let s = all_lent(variables, clauses, rows, flag, literals, ends, keys, images);
    CStored::from(calls::withdraw(&s))
}

#[unsafe(no_mangle)]
pub extern "C" fn symbreak_figures(
    variables: u64,
    clauses: u64,
    rows: u64,
    flag: u64,
    literals: &[u16],
    ends: &[u16],
    keys: &[u64],
    images: &[u16],
) -> CFigures
    ensures { let s = keyed (record_of variables clauses rows flag) literals.entry ends.entry keys.entry images.entry in
        result ≡ c_figures (figures_says s) }
{
    let s = all_lent(variables, clauses, rows, flag, literals, ends, keys, images);
    CFigures::from(calls::figures(&s))
}

#[unsafe(no_mangle)]
pub extern "C" fn symbreak_header(
    variables: u64,
    clauses: u64,
    rows: u64,
    flag: u64,
    literals: &[u16],
    ends: &[u16],
    keys: &[u64],
    images: &[u16],
    out: &mut [u8],
) -> CAnswer
    ensures says { let s = keyed (record_of variables clauses rows flag) literals.entry ends.entry keys.entry images.entry in
        result ≡ c_answer (header_says s (length out.old)) }
    ensures leaves { let s = keyed (record_of variables clauses rows flag) literals.entry ends.entry keys.entry images.entry in
        out.new ≡ header_leaves s out.old }
{
    let s = all_lent(variables, clauses, rows, flag, literals, ends, keys, images);
    CAnswer::from(calls::header(&s, out))
}

#[unsafe(no_mangle)]
pub extern "C" fn symbreak_clause(
    variables: u64,
    clauses: u64,
    rows: u64,
    flag: u64,
    literals: &[u16],
    ends: &[u16],
    keys: &[u64],
    images: &[u16],
    q: u64,
    out: &mut [u8],
) -> CAnswer
    ensures says { let s = keyed (record_of variables clauses rows flag) literals.entry ends.entry keys.entry images.entry in
        result ≡ c_answer (clause_says s q (length out.old)) }
    ensures leaves { let s = keyed (record_of variables clauses rows flag) literals.entry ends.entry keys.entry images.entry in
        out.new ≡ clause_leaves s q out.old }
{
    let s = all_lent(variables, clauses, rows, flag, literals, ends, keys, images);
    CAnswer::from(calls::clause(&s, q as usize, out))
}

#[unsafe(no_mangle)]
pub extern "C" fn symbreak_fill_in(
    variables: u64,
    clauses: u64,
    rows: u64,
    flag: u64,
    literals: &[u16],
    ends: &[u16],
    keys: &[u64],
    images: &[u16],
    a: &[u64],
    out: &mut [u64],
) -> CAnswer
    ensures says { let s = keyed (record_of variables clauses rows flag) literals.entry ends.entry keys.entry images.entry in
        result ≡ c_answer (fill_says s a.now (length out.old)) }
    ensures leaves { let s = keyed (record_of variables clauses rows flag) literals.entry ends.entry keys.entry images.entry in
        out.new ≡ fill_leaves s a.now out.old }
{
    let s = all_lent(variables, clauses, rows, flag, literals, ends, keys, images);
    CAnswer::from(calls::fill_in(&s, a, out))
}

#[unsafe(no_mangle)]
pub extern "C" fn symbreak_check(
    variables: u64,
    clauses: u64,
    rows: u64,
    flag: u64,
    literals: &[u16],
    ends: &[u16],
    keys: &[u64],
    images: &[u16],
    a: &[u64],
) -> CAnswer
    ensures { let s = keyed (record_of variables clauses rows flag) literals.entry ends.entry keys.entry images.entry in
        result ≡ c_checked (check_says s a.now) }
{
    let s = all_lent(variables, clauses, rows, flag, literals, ends, keys, images);
    CAnswer::from(calls::check(&s, a))
}

#[unsafe(no_mangle)]
pub extern "C" fn symbreak_descend(
    variables: u64,
    clauses: u64,
    rows: u64,
    flag: u64,
    literals: &[u16],
    ends: &[u16],
    keys: &[u64],
    images: &[u16],
    a: &mut [u64],
    limit: u64,
) -> CDescent
    ensures says { let s = keyed (record_of variables clauses rows flag) literals.entry ends.entry keys.entry images.entry in
        result ≡ c_descent (descend_says s a.old limit) }
    ensures leaves { let s = keyed (record_of variables clauses rows flag) literals.entry ends.entry keys.entry images.entry in
        a.new ≡ descend_leaves s a.old limit }
{
    let s = all_lent(variables, clauses, rows, flag, literals, ends, keys, images);
    CDescent::from(calls::descend(&s, a, limit))
}

#[unsafe(no_mangle)]
pub extern "C" fn symbreak_compare(a: &[u64], b: &[u64]) -> CAnswer
    ensures { result ≡ c_answer (compare_says a.now b.now) }
{
    CAnswer::from(calls::compare(a, b))
}

#[unsafe(no_mangle)]
pub extern "C" fn symbreak_efficiency(labelled: u64, unlabelled: u64, allowed: u64) -> CAnswer
    ensures { result ≡ c_answer (efficiency_says labelled unlabelled allowed) }
{
    CAnswer::from(calls::efficiency(labelled, unlabelled, allowed))
}

// What C lends to a call that changes none of it: the record as four numbers, for they go by value, and four slices.
fn all_lent<'a>(
    variables: u64,
    clauses: u64,
    rows: u64,
    flag: u64,
    literals: &'a [u16],
    ends: &'a [u16],
    keys: &'a [u64],
    images: &'a [u16],
) -> Lent<'a>
    ensures { result ≡ keyed (record_of variables clauses rows flag) literals.entry ends.entry keys.entry images.entry }
{
    Lent {
        counts: record_of(variables, clauses, rows, flag),
        literals,
        ends,
        keys,
        images,
    }
}

fn record_of(variables: u64, clauses: u64, rows: u64, flag: u64) -> Record
    ensures { result ≡ record_of variables clauses rows flag }
{
    Record {
        variables: variables as usize,
        clauses: clauses as usize,
        rows: rows as usize,
        is_open: flag != 0,
    }
}

impl From<Record> for CRecord {
    ghost from_gives = { λ r c. c ≡ c_record r };

    fn from(r: Record) -> CRecord {
        CRecord {
            variables: r.variables as u64,
            clauses: r.clauses as u64,
            rows: r.rows as u64,
            is_open: r.is_open as u64,
        }
    }
}

// An answer beside a record: what the answer holds is no part of it.
impl<T: Copy> From<Stored<T>> for CStored {
    ghost from_gives = { λ r c. c ≡ c_stored (said r.answer) r.counts };

    fn from(stored: Stored<T>) -> CStored {
        let r = stored.counts;
        let (refusal, place) = match stored.answer {
            Ok(_) => (0, 0),
            Err(refusal) => (refusal.number(), refusal.place() as u64),
        };
        CStored {
            refusal,
            place,
            variables: r.variables as u64,
            clauses: r.clauses as u64,
            rows: r.rows as u64,
            is_open: r.is_open as u64,
        }
    }
}

impl From<Result<Figures, Refusal>> for CFigures {
    ghost from_gives = { λ r c. c ≡ c_figures (said r) };

    fn from(answer: Result<Figures, Refusal>) -> CFigures {
        match answer {
            Ok(figures) => CFigures {
                refusal: 0,
                place: 0,
                variables: figures.variables as u64,
                clauses: figures.clauses as u64,
                literals: figures.literals as u64,
                bytes: figures.bytes as u64,
            },
            Err(refusal) => CFigures {
                refusal: refusal.number(),
                place: refusal.place() as u64,
                variables: 0,
                clauses: 0,
                literals: 0,
                bytes: 0,
            },
        }
    }
}

// An answer with one value.
impl From<Result<u64, Refusal>> for CAnswer {
    ghost from_gives = { λ r c. c ≡ c_answer (said r) };

    fn from(answer: Result<u64, Refusal>) -> CAnswer {
        match answer {
            Ok(value) => CAnswer {
                refusal: 0,
                place: 0,
                value,
            },
            Err(refusal) => CAnswer {
                refusal: refusal.number(),
                place: refusal.place() as u64,
                value: 0,
            },
        }
    }
}

// What a check finds: the first false clause, or 0 for yes.
impl From<Result<Option<usize>, Refusal>> for CAnswer {
    ghost from_gives = { λ r c. c ≡ c_checked (said_finding r) };

    fn from(answer: Result<Option<usize>, Refusal>) -> CAnswer {
        CAnswer::from(answer.map(|found| found.map_or(0, |clause| clause as u64)))
    }
}

impl From<Result<Descended, Refusal>> for CDescent {
    ghost from_gives = { λ r c. c ≡ c_descent (said_descent r) };

    fn from(answer: Result<Descended, Refusal>) -> CDescent {
        match answer {
            Ok(Descended::Settled(moves)) => CDescent {
                refusal: 0,
                place: 0,
                settled: 1,
                moves,
            },
            Ok(Descended::Spent(moves)) => CDescent {
                refusal: 0,
                place: 0,
                settled: 0,
                moves,
            },
            Err(refusal) => CDescent {
                refusal: refusal.number(),
                place: refusal.place() as u64,
                settled: 0,
                moves: 0,
            },
        }
    }
}
