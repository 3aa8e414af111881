//! The last mark of a text.
ghost use Rattle.std.specs.Prelude.{◌≡◌, ◌<◌, ◌+◌, true, None, Some, length, take, drop, slice_index, MatchOption};
ghost use Rattle.std.specs.List.{list_all};
ghost use Rattle.std.specs.Option.{option_map};
ghost use Rattle.dg_text.specs.LastMark.{is_ascii, is_mark, split_at_last};

/// What stands before the last of these marks in a text, that mark, and what stands behind it. None where
/// none of them stands there. It takes time linear in the text.
pub fn split_at_last<'a>(text: &'a str, marks: &[u8]) -> Option<(&'a str, u8, &'a str)>
    requires { list_all is_ascii marks.now ≡ true }
    ensures { option_map (λ s. record { before = s.0.now; mark = s.1; behind = s.2.now }) result ≡ split_at_last marks.now text.now }
{
    match last_place(text.as_bytes(), marks) {
        Some(at) => {
            let mark = text.as_bytes()[at];
            Some((&text[..at], mark, &text[at + 1..]))
        }
        None => None,
    }
}

// Where the last mark stands.
fn last_place(text: &[u8], marks: &[u8]) -> Option<usize>
    requires { list_all is_ascii marks.now ≡ true }
    ensures { MatchOption result (split_at_last marks.now text.now ≡ None) (λ at. (at < length text.now)
        × (slice_index text.now at < 128)
        × (split_at_last marks.now text.now ≡ Some (record { before = take at text.now; mark = slice_index text.now at; behind = drop (at + 1) text.now }))) }
{
    let mut end = text.len();
    while end > 0 {
        end -= 1;
        if is_mark(marks, text[end]) {
            return Some(end);
        }
    }
    None
}

fn is_mark(marks: &[u8], b: u8) -> bool
    ensures { result ≡ is_mark marks.now b }
{
    marks.iter().any(|mark| b == *mark)
}
