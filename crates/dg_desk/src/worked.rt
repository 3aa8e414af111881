//! Worked cases: each function here has an empty body, and its contract states what the definitions give for the
//! histories of `specs/Worked.antt`. The checker computes them.
ghost use Rattle.std.specs.Prelude.{◌≡◌, [], ◌∷◌, map};
ghost use Rattle.dg_desk.specs.Desks.{snapshot_of};
ghost use Rattle.dg_desk.specs.Worked.{Plays, evicted_one, published, restarted, state_after, total_in};
ghost use Rattle.dg_line.specs.Worked.{other_set};

/// Of an offer of an earlier revision the entries that didn't change since are put, the last one in front, and
/// the one that did comes late. An eviction takes from the end. A snapshot shows what there is at the desk's own
/// revision alone.
pub fn keeps_what_is_unchanged()
    ensures published { (state_after published).entries ≡ total_in other_set 3 ∷ total_in other_set 2 ∷ [] }
    ensures evicted { (state_after evicted_one).entries ≡ total_in other_set 3 ∷ [] }
    ensures shown { snapshot_of (state_after evicted_one) 2 ≡ total_in other_set 3 ∷ [] }
    ensures hidden { snapshot_of (state_after evicted_one) 1 ≡ [] }
    ensures plays { Plays evicted_one }
{}

/// After a link from elsewhere its end alone is listed, and an offer of a revision that isn't listed puts nothing.
pub fn begins_anew()
    ensures listed { map (λ p. p.index) (state_after restarted).list ≡ 2 ∷ [] }
    ensures entries { (state_after restarted).entries ≡ [] }
    ensures plays { Plays restarted }
{}
