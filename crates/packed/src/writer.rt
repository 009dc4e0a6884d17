// Values written into lent words, the highest bit of each word first (document 01, "Assignments, filling in and descent"). Descent
// writes an assignment of 1..n, filling in one of 1..N; both do it here.
//
// A writer goes by value: how many values it has taken, and the digits of the word that is begun. It takes runs of equal values, up to
// 32 of them at once, since the auxiliaries of a row are two runs; a word goes into the buffer when it has its 64 digits, and the last
// one, with 0 in its spare bits, when the writer is finished. Nothing else of the buffer is written.
//
// What makes the proofs go: a writer and its buffer hold a list of values (`WriterHolds`), whose words are binary numbers, and k equal
// digits behind a number are one shift and one addition (`binary-run`). So each function appends a list (`Appends`), whatever values are
// held before; lists that are appended one after another are put together by `WriterRun` (proofs/Runs.antt), and `finish` leaves
// `words_of` of what is held.
ghost use Rattle.std.specs.Prelude.{◌≡◌, Bool, cond, List, [], ◌++◌, ℕ, ◌+◌, ◌-◌, ◌%◌, ◌^◌, ◌≤◌, length, drop, replicate};
ghost use Rattle.packed.specs.Words.{word_count, words_of};
ghost use Rattle.packed.specs.Writing.{WriterHolds, WriterRoom, Appends};

// How many values a writer has taken, and those of the word that is begun.
#[derive(Clone, Copy)]
pub struct Writer {
    pub taken: usize,
    pub word: u64,
}

// A writer that has taken nothing.
pub fn begin() -> Writer
    ensures { (out : List ℕ) → WriterHolds [] result out out }
{
    Writer { taken: 0, word: 0 }
}

// Takes a run of k equal values.
pub fn push_run(out: &mut [u64], w: Writer, value: bool, k: usize) -> Writer
    requires { WriterRoom w k out.old }
    ensures { Appends w (replicate k value) out.old result out.new }
{
    let mut taken = w;
    let mut left = k;
    // By what the begun word has room for.
    while 0 < left {
        let here = at_once(taken.taken, left);
        taken = push(out, taken, value, here);
        left -= here;
    }
    taken
}

// How many of some values go at once behind those taken: no more than the begun word has room for, and no more than 32.
fn at_once(taken: usize, left: usize) -> usize
    requires { 1 ≤ left }
    ensures { (1 ≤ result) × (result ≤ left) × (result ≤ 32) × (taken % 64 + result ≤ 64) }
{
    left.min(64 - taken % 64).min(32)
}

// Takes k equal values that the begun word has room for; a word that is whole goes into the buffer.
pub fn push(out: &mut [u64], w: Writer, value: bool, k: usize) -> Writer
    requires { WriterRoom w k out.old × (1 ≤ k) × (k ≤ 32) × (w.taken % 64 + k ≤ 64) }
    ensures { Appends w (replicate k value) out.old result out.new }
{
    let word = (w.word << k) + digits(value, k);
    let taken = w.taken + k;
    if taken % 64 == 0 {
        let i = w.taken / 64;
        out[i] = word;
        return Writer { taken, word: 0 };
    }
    Writer { taken, word }
}

// The number of k equal binary digits.
fn digits(value: bool, k: usize) -> u64
    requires { k ≤ 32 }
    ensures { result ≡ cond value (2 ^ k - 1) 0 }
{
    if value { (1 << k) - 1 } else { 0 }
}

// Puts the begun word into the buffer, its spare bits 0, and answers how many words there are.
pub fn finish(out: &mut [u64], w: Writer) -> usize
    requires { WriterRoom w 0 out.old }
    ensures words { result ≡ word_count w.taken }
    ensures buffer { (values : List Bool) (old : List ℕ) → WriterHolds values w old out.old
        → out.new ≡ words_of values ++ drop (word_count (length values)) old }
{
    let whole = w.taken / 64;
    let rest = w.taken % 64;
    if rest == 0 {
        return whole;
    }
    out[whole] = w.word << (64 - rest);
    whole + 1
}
