// The file of cases: a line that says what a case shows, the line of its post, its listing, an empty line.
ghost use Rattle.std.specs.Prelude.{◌≡◌, [], ◌∷◌, ◌++◌, ◌≤◌, ◌<◌, length};
ghost use Rattle.std.specs.Iterator.{at_most};
ghost use Rattle.quote_lines.specs.Lines.{same};

use text::scan::first_from;

// How many bytes the first line of a text has, with its line feed.
pub fn line_size(s: &[u8]) -> usize
    ensures inside { result ≤ length s.now }
    ensures nonzero { 0 < length s.now → 0 < result }
{
    (first_from(s, 0, |b| b == b'\n') + 1).min(s.len())
}

// How many bytes the first case of a text has: up to the next empty line and with it.
fn case_size(s: &[u8]) -> usize
    ensures inside { result ≤ length s.now }
    ensures nonzero { 0 < length s.now → 0 < result }
{
    let mut at = 0;
    // A while: each line has another size.
    while at < s.len() && s[at] != b'\n' {
        at += line_size(&s[at..]);
    }
    (at + 1).min(s.len())
}

// The cases that are left of a file.
#[derive(Drop)]
pub struct Cases<'a>(pub &'a [u8]);

impl<'a> Iterator for Cases<'a> {
    type Item = &'a [u8];

    ghost remaining = { λ s. at_most (length s.0.now) };

    fn next(&mut self) -> Option<&'a [u8]> {
        let file = self.0;
        if file.is_empty() {
            return None;
        }
        let (case, others) = file.split_at(case_size(file));
        self.0 = others;
        Some(case)
    }
}

// Whether the end of a case is this listing and an empty line.
pub fn is_answer(answer: &[u8], listing: &[u8]) -> bool
    ensures { result ≡ same answer.now (listing.now ++ (10 ∷ [])) }
{
    match answer.strip_suffix(b"\n") {
        Some(front) => front == listing,
        None => false,
    }
}
