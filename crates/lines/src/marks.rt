// Texts cut at a mark.
ghost use Rattle.std.specs.Prelude.{◌≡◌, ◌+◌, length, MatchOption};
ghost use Rattle.lines.specs.Parts.{parts, beside, rejoined, First, Absent};

// The place of the first mark in a text.
fn place(text: &[u8], mark: u8) -> Option<usize>
    ensures { MatchOption result (Absent mark text.now) (λ at. First mark text.now at) }
{
    text.iter().position(|byte| *byte == mark)
}

// The text before the first mark, and the text behind it where there is a mark. A pair, since a text with no mark has the first.
pub fn cut(text: &[u8], mark: u8) -> (&[u8], Option<&[u8]>)
    ensures parts { parts mark text.now ≡ beside mark result.0.now result.1 }
    ensures whole { text.now ≡ rejoined mark result.0.now result.1 }
    ensures long { MatchOption result.1 (length result.0.now ≡ length text.now) (λ rest. length result.0.now + 1 + length rest.now ≡ length text.now) }
{
    match place(text, mark) {
        Some(at) => (&text[..at], Some(&text[at + 1..])),
        None => (text, None),
    }
}
