//! A law of the definitions.
ghost use Rattle.std.specs.Prelude.{◌≡◌, ◌≢◌, ℕ, List, Some, IsTrue};
ghost use Rattle.dg_files.specs.Tree.{Tree, are_distinct, bytes_at, written};

/// What a write leaves, read back: its own bytes at its path, every other path as it was, and no
/// path twice. It does nothing.
pub fn writes_are_read_back()
    ensures here { (t : Tree) (path bytes : List ℕ) → bytes_at (written t path bytes) path ≡ Some bytes }
    ensures others { (t : Tree) (path bytes other : List ℕ) → other ≢ path → bytes_at (written t path bytes) other ≡ bytes_at t other }
    ensures distinct { (t : Tree) (path bytes : List ℕ) → IsTrue (are_distinct t) → IsTrue (are_distinct (written t path bytes)) }
{}
