//! Worked cases: each function here has an empty body, and its contract states what the definitions give for a
//! value of `specs/Worked.antt`. The checker computes them.
ghost use Rattle.std.specs.Prelude.{◌≡◌, [], ◌∷◌, ◌++◌, codes, bytes_eq};
ghost use Rattle.dg_build.specs.Firsts.{firsts, place_of};
ghost use Rattle.dg_build.specs.Paths.{stem_of};
ghost use Rattle.dg_build.specs.Targets.{target, targets, different_contents};
ghost use Rattle.dg_build.specs.Worked.{one_name, content, one_content, three_contents, with_property, parent_and_child};

/// Texts as they first appear, and the place of one.
pub fn finds_firsts()
    ensures each_once { firsts bytes_eq (codes "b" ∷ codes "a" ∷ codes "b" ∷ codes "c" ∷ codes "a" ∷ []) ≡ codes "b" ∷ codes "a" ∷ codes "c" ∷ [] }
    ensures place { place_of bytes_eq (codes "b" ∷ codes "a" ∷ codes "c" ∷ []) (codes "c") ≡ 2 }
{}

/// Paths without their endings.
pub fn finds_stems()
    ensures collection { stem_of (codes "/a/b.collection") ≡ codes "/a/b" }
    ensures game_object { stem_of (codes "/a.collection.go") ≡ codes "/a.collection" }
{}

/// Equal contents are one, and those of another type are another.
pub fn shares_contents()
    ensures { different_contents three_contents ≡ content (codes "t") (codes "x") ∷ content (codes "u") (codes "x") ∷ [] }
{}

/// A content stands in a file of its own, whose path has the type.
pub fn writes_contents()
    ensures { targets one_content [] ≡
        target (codes "/a_component_0.tc") (codes "x")
        ∷ target (codes "/a.goc") (codes "object\ncomponent \"b\" \"/a_component_0.tc\" 0 0 0 0 0 0 1\n")
        ∷ [] }
{}

/// A property stands behind its component.
pub fn writes_properties()
    ensures { targets with_property one_name ≡
        target (codes "/a.goc") (codes "object\ncomponent \"s\" \"/s.scriptc\" 0 0 0 0 0 0 1\nproperty \"speed\" number \"1\"\n")
        ∷ [] }
{}

/// Equal objects share a text.
pub fn shares_texts()
    ensures { targets parent_and_child [] ≡
        target (codes "/a_object_0.goc") (codes "object\n")
        ∷ target (codes "/a.collectionc") (codes "collection \"a\" 1\nobject \"/b\" \"/a_object_0.goc\" 1 1 1 0 0 0 1 1 1 1\nchild \"/c\"\nobject \"/c\" \"/a_object_0.goc\" 0 0 0 0 0 0 1 1 1 1\n")
        ∷ [] }
{}
