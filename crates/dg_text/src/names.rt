//! Names.
ghost use Rattle.std.specs.Prelude.{◌≡◌};
ghost use Rattle.std.specs.List.{list_all};
ghost use Rattle.dg_text.specs.Names.{begins_name, continues_name, is_name};

/// Whether a text is an ASCII letter or `_`, and then such characters and digits.
pub fn is_name(text: &str) -> bool
    ensures { result ≡ is_name text.now }
{
    match text.as_bytes().split_first() {
        Some((first, rest)) => begins_name(*first) && continue_name(rest),
        None => false,
    }
}

fn continue_name(bytes: &[u8]) -> bool
    ensures { result ≡ list_all continues_name bytes.now }
{
    bytes.iter().all(|b| begins_name(*b) || b.is_ascii_digit())
}

fn begins_name(b: u8) -> bool
    ensures { result ≡ begins_name b }
{
    b.is_ascii_alphabetic() || b == b'_'
}
