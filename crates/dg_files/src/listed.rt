//! Which paths a listing gives.
ghost use Rattle.std.specs.Prelude.{◌≡◌, true};
ghost use Rattle.dg_files.specs.Tree.{is_listed, has_hidden};

/// Whether a listing gives the path: it doesn't begin with `/build/`, and no segment begins with
/// `.`.
pub fn is_listed(path: &str) -> bool
    ensures { result ≡ is_listed path.now }
{
    let bytes = path.as_bytes();
    !bytes.starts_with(b"/build/") && !has_hidden(bytes)
}

fn has_hidden(path: &[u8]) -> bool
    ensures { result ≡ has_hidden true path.now }
{
    let mut at_start = true;
    for byte in path {
        if at_start && *byte == b'.' {
            return true;
        }
        at_start = *byte == b'/';
    }
    false
}
