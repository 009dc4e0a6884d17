// Comment lines (document 01, "Plain formula", and CR 1): the lines of a text whose first byte is `c`, before its problem line and after it.
// Names and value lines know none, so that `dimacs` does not either. What carries the proofs: from a place inside a line that is no comment,
// the words that are left are those of the rest of the line and of the later lines but for the comments, and each step of a walk leaves them
// as they are.
#![tactic(auto)]

ghost use Rattle.std.specs.Prelude.{◌≡◌, ◌≤◌, ◌<◌, length};
ghost use Rattle.dimacs.specs.Lines.{lines_at};
ghost use Rattle.comments.specs.Comments.{after_comments, starts_comment, words_past, Between, first_place};

// The first byte of a comment line.
const COMMENT: u8 = b'c';

// The start of the first line that is no comment, or a place at which no line starts: where the next one would (`lines_at`), and no Option.
pub fn first_line(text: &[u8]) -> usize
    ensures { lines_at text.now result ≡ after_comments (lines_at text.now 0) }
{
    let mut at = 0;
    // From line to line: where the next one starts is known once this one is read.
    while at < text.len() && text[at] == COMMENT {
        at = dimacs::line_end(text, at) + 1;
    }
    at
}

// The start of the first word at or after `at` that stands in no comment, or the text's length, by `first_place`. What lies between the words
// of a body is decided here alone.
pub fn next_word(text: &[u8], at: usize) -> usize
    requires { Between text.now at }
    ensures { result ≡ first_place (length text.now) (words_past text.now at) }
{
    let mut i = dimacs::next_word(text, at);
    // From comment to comment: where one ends is known once it is read.
    while i < text.len() && starts_comment(text, i) {
        i = dimacs::next_word(text, dimacs::line_end(text, i));
    }
    i
}

// Whether a comment starts at a place that is not the text's first.
#[tactic(auto, unfolding(crate::specs::Comments::starts_comment))]
fn starts_comment(text: &[u8], at: usize) -> bool
    requires { (1 ≤ at) × (at < length text.now) }
    ensures { result ≡ starts_comment text.now at }
{
    text[at] == COMMENT && text[at - 1] == b'\n'
}
