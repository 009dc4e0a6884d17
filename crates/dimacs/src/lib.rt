// Bytes into words, numbers and lines (document 01, "Plain formula"). Callers find a word with `next_word` and take what `read` answers
// apart with `let .. else`: a number with the cursor past it, or the place where no number is. What carries the proofs: a text is the list
// of its words with their places (specs/Words.antt), and each function here finds the head of such a list.
#![tactic(auto)]

ghost use Rattle.std.specs.Prelude.{◌≡◌, ℕ, Bool, ◌<◌, ◌≤◌, length, get_or};
ghost use Rattle.dimacs.specs.Words.{is_blank, is_word_byte, run, run_end};
ghost use Rattle.dimacs.specs.Lines.{is_line_byte};
ghost use Rattle.dimacs.specs.Numbers.{is_digit, decimal_from, reading_at};

#[derive(Clone, Copy)]
pub struct Number {
    pub negative: bool,
    pub size: u32,
}

// A place in a text from which reading goes on.
#[derive(Clone, Copy)]
pub struct Cursor {
    pub at: usize,
}

// The place of a word that is no number.
#[derive(Clone, Copy)]
pub struct NotNumber {
    pub at: usize,
}

// How many digits there are, and their value.
#[derive(Clone, Copy)]
struct Digits {
    count: usize,
    value: u32,
}

// The start of the first word at or after `at`, or the text's length, which is where its last run ends (`run_end`): a place like others, and no
// Option. What lies between the words of a line is decided here alone.
pub fn next_word(text: &[u8], at: usize) -> usize
    ensures { result ≡ run_end is_blank text.now at }
{
    run_end(text, at, blank)
}

// The number that the word at `at` is, with the cursor past it. A word is walked once: if it is a number, it ends where its digits end.
pub fn read(text: &[u8], at: usize) -> Result<(Number, Cursor), NotNumber>
    ensures { result ≡ reading_at text.now at }
{
    if text.len() <= at {
        return Err(NotNumber { at });
    }
    let negative = text[at] == b'-';
    let start = at + negative as usize;
    let most = (text.len() - start).min(6);
    let digits = leading_digits(&text[start..start + most]);
    let end = start + digits.count;
    if !word_ends(text, end) {
        return Err(NotNumber { at });
    }
    if end == start {
        return Err(NotNumber { at });
    }
    // a zero stands alone
    let alone = at + 1 == end;
    if text[start] == b'0' && !alone {
        return Err(NotNumber { at });
    }
    let size = digits.value;
    Ok((Number { negative, size }, Cursor { at: end }))
}

// The end of the word at `at`.
pub fn word_end(text: &[u8], at: usize) -> usize
    ensures { result ≡ run_end is_word_byte text.now at }
{
    run_end(text, at, |b| !blank(b))
}

// The end of the line that holds the byte at `at`: its line feed, or the text's length.
pub fn line_end(text: &[u8], at: usize) -> usize
    ensures { result ≡ run_end is_line_byte text.now at }
{
    run_end(text, at, |b| b != b'\n')
}

// Where the run of bytes that pass a test ends, from a place on.
fn run_end<F: Fn(u8) -> bool>(text: &[u8], at: usize, passes: F) -> usize
    requires { F.IsAlwaysCallable passes }
    ensures { (test : ℕ → Bool)
        → ((b : ℕ) (r : Bool) → b < 256 → F.post passes b r → r ≡ test b)
        → result ≡ run_end test text.now at }
{
    for i in at..text.len() {
        if !passes(text[i]) {
            return i;
        }
    }
    at.max(text.len())
}

// The digits at the front of at most six bytes.
fn leading_digits(bytes: &[u8]) -> Digits
    requires { length bytes.now ≤ 6 }
    ensures { let digits = run is_digit bytes.now in
        (result.count ≡ length digits) × (result.value ≡ decimal_from 0 digits) }
{
    let mut value: u32 = 0;
    for (count, b) in bytes.iter().enumerate() {
        if !b.is_ascii_digit() {
            return Digits { count, value };
        }
        value = value * 10 + u32::from(*b - b'0');
    }
    Digits {
        count: bytes.len(),
        value,
    }
}

// Whether no word goes on at a place: a blank stands there, or the text ends.
#[tactic(auto, unfolding(crate::specs::Words::is_blank))]
fn word_ends(text: &[u8], at: usize) -> bool
    ensures { result ≡ is_blank (get_or text.now at 32) }
{
    text.len() <= at || blank(text[at])
}

#[tactic(auto, unfolding(crate::specs::Words::is_blank))]
pub fn blank(b: u8) -> bool
    ensures { result ≡ is_blank b }
{
    matches!(b, b' ' | b'\t' | b'\n')
}
