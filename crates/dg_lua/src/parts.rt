//! Runs, words, strings and brackets, taken off the front of a text.
ghost use Rattle.std.specs.Prelude.{◌≡◌, ◌≤◌, length, option_map};
ghost use Rattle.std.specs.List.{prefix_len, take_while};
ghost use Rattle.dg_lua.specs.Runs.{belongs};
ghost use Rattle.dg_lua.specs.Parts.{is_blank, is_letter, is_of_decimal, run, behind_run, behind_blanks, behind, taken, closed_by, string_in, behind_bracket, closed, argument_in, argument_or_none};

/// What the bytes of a run are: blanks, letters, bytes of a decimal, or what stands between double or single quotes.
#[derive(Clone, Copy, PartialEq, Eq, Debug)]
pub(crate) enum Run {
    Blanks,
    Letters,
    Decimal,
    Double,
    Single,
}

fn belongs(run: Run, byte: u8) -> bool
    ensures { result ≡ belongs run byte }
{
    match run {
        Run::Blanks => byte == b' ' || byte == b'\t',
        Run::Letters => byte.is_ascii_alphabetic() || byte == b'_',
        Run::Decimal => {
            byte.is_ascii_digit()
                || byte == b'.'
                || byte == b'+'
                || byte == b'-'
                || byte == b'e'
                || byte == b'E'
        }
        Run::Double => !(byte == b'"' || byte == b'\\'),
        Run::Single => !(byte == b'\'' || byte == b'\\'),
    }
}

fn run_len(sort: Run, bytes: &[u8]) -> usize
    ensures len { result ≡ prefix_len (belongs sort) bytes.now }
    ensures within { result ≤ length bytes.now }
{
    bytes
        .iter()
        .take_while(|byte| belongs(sort, **byte))
        .count()
}

/// The run that the text begins with, and what stands behind it.
#[tactic(auto, using(crate::proofs::Cuts::ends_run))]
pub(crate) fn split_run(sort: Run, text: &str) -> (&str, &str)
    ensures front { result.0.now ≡ run (belongs sort) text.now }
    ensures behind { result.1.now ≡ behind_run (belongs sort) text.now }
{
    let len = run_len(sort, text.as_bytes());
    (&text[..len], &text[len..])
}

/// What stands behind the blanks that the text begins with.
pub(crate) fn behind_blanks(text: &str) -> &str
    ensures { result.now ≡ behind_blanks text.now }
{
    split_run(Run::Blanks, text).1
}

/// What stands behind a word that the text begins with.
#[tactic(auto, using(crate::proofs::Cuts::stripped))]
pub(crate) fn behind<'a>(word: &str, text: &'a str) -> Option<&'a str>
    ensures { option_map (λ t. t.now) result ≡ behind word.now text.now }
{
    text.strip_prefix(word)
}

/// The text of a string in quotes of either sort, and what stands behind it.
pub(crate) fn string_in(text: &str) -> Option<(&str, &str)>
    ensures { option_map (λ p. taken p.0.now p.1.now) result ≡ string_in text.now }
{
    match behind("\"", text) {
        Some(rest) => closed_by(Run::Double, "\"", rest),
        None => closed_by(Run::Single, "'", behind("'", text)?),
    }
}

// What stands up to the next quote, and what stands behind that.
fn closed_by<'a>(sort: Run, quote: &str, text: &'a str) -> Option<(&'a str, &'a str)>
    ensures { option_map (λ p. taken p.0.now p.1.now) result
        ≡ option_map (taken (run (belongs sort) text.now)) (behind quote.now (behind_run (belongs sort) text.now)) }
{
    let (front, rest) = split_run(sort, text);
    match behind(quote, rest) {
        Some(rest) => Some((front, rest)),
        None => None,
    }
}

/// What stands behind blanks and the bracket that closes.
pub(crate) fn behind_bracket(text: &str) -> Option<&str>
    ensures { option_map (λ t. t.now) result ≡ behind_bracket text.now }
{
    behind(")", behind_blanks(text))
}

/// What was taken, and what stands behind the bracket that closes.
pub(crate) fn closed<'a>(front: &'a str, rest: &'a str) -> Option<(&'a str, &'a str)>
    ensures { option_map (λ p. taken p.0.now p.1.now) result ≡ closed (taken front.now rest.now) }
{
    match behind_bracket(rest) {
        Some(rest) => Some((front, rest)),
        None => None,
    }
}

/// The one string in brackets of which the first stands before the text, and what stands behind them.
pub(crate) fn argument_in(text: &str) -> Option<(&str, &str)>
    ensures { option_map (λ p. taken p.0.now p.1.now) result ≡ argument_in text.now }
{
    let (front, rest) = string_in(behind_blanks(text))?;
    closed(front, rest)
}

/// The same, or an empty text where there is no string.
pub(crate) fn argument_or_none(text: &str) -> Option<(&str, &str)>
    ensures { option_map (λ p. taken p.0.now p.1.now) result ≡ argument_or_none text.now }
{
    match behind_bracket(text) {
        Some(rest) => Some(("", rest)),
        None => argument_in(text),
    }
}
