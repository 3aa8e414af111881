//! What holds of quoted text. Nothing here does anything when it runs.
ghost use Rattle.dg_script.specs.Laws.{ReadsBack, QuotedApart};

/// A script's line that is the quoted text has one word: quoted, and with this text. It holds of
/// every text, since all bytes of UTF-8 can be written.
pub fn reads_back(text: &str)
    ensures { ReadsBack text.now }
{}

/// Two texts that differ are quoted differently.
pub fn quoted_apart(text: &str, other: &str)
    ensures { QuotedApart text.now other.now }
{}
