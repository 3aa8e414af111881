//! What has a name in a table of names.
ghost use Rattle.std.specs.Prelude.{◌≡◌, map};
ghost use Rattle.dg_labels.specs.Names.{named_in};

pub(crate) fn named_in<T: Copy>(rows: &[(T, &'static str)], name: &str) -> Option<T>
    ensures { result ≡ named_in (map (λ r. (r.0, r.1.now)) rows.now) name.now }
{
    for row in rows {
        if name == row.1 {
            return Some(row.0);
        }
    }
    None
}
