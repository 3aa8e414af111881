//! The size of a script, and of what it prints.
ghost use Rattle.std.specs.Prelude.{◌≡◌, length, count_by};
ghost use Rattle.dg_script.specs.Script.{is_line_feed, lines_in};

/// The most bytes of a script, and the most lines.
pub const MAX_SCRIPT: usize = 1048576;

pub const MAX_LINES: usize = 65536;

/// The most bytes of all lines that are printed, line feeds included.
pub const MAX_TEXT: usize = 268435456;

/// How many lines a script has: its last byte doesn't begin another one.
pub(crate) fn line_count(bytes: &[u8]) -> usize
    ensures { result ≡ length (lines_in bytes.now) }
{
    match bytes.split_last() {
        Some((_, front)) => line_feeds(front) + 1,
        None => 0,
    }
}

fn line_feeds(bytes: &[u8]) -> usize
    ensures { result ≡ count_by is_line_feed bytes.now }
{
    bytes.iter().filter(|b| **b == b'\n').count()
}
