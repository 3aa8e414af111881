//! Worked cases: each function here has an empty body, and its contract states what the definitions give for the deeds
//! of `specs/Worked.antt`. The checker computes them.
ghost use Rattle.std.specs.Prelude.{◌≡◌, [], Some, codes};
ghost use Rattle.dg_deeds.specs.Deeds.{IsBegun, text_after, tree_after};
ghost use Rattle.dg_deeds.specs.declared.deed.Stop.TheVariants as stop;
ghost use Rattle.dg_deeds.specs.Worked.{two_builds, tree_before, tree_between, tree_behind};

/// What is there once all is done.
pub fn is_done()
    ensures tree { tree_after two_builds tree_before ≡ tree_behind }
    ensures text { text_after two_builds (codes "0: ") ≡ codes "0: 1: a 2: b " }
{}

/// At a fault of the sink in the second line both files are there, and a first part of the lines.
pub fn is_cut_off_in_a_line()
    ensures { IsBegun stop.SinkFault two_builds (Some tree_before) (Some tree_behind) (Some []) (Some (codes "1: a 2:")) }
{}

/// At a fault of the second file the first one is there with its line.
pub fn is_cut_off_at_a_file()
    ensures { IsBegun stop.FileFault two_builds (Some tree_before) (Some tree_between) (Some []) (Some (codes "1: a ")) }
{}

/// A line is never there without the file before it, whatever stopped.
pub fn needs_the_file_first()
    ensures sink { ¬ IsBegun stop.SinkFault two_builds (Some tree_before) (Some tree_before) (Some []) (Some (codes "1: a ")) }
    ensures memory { ¬ IsBegun stop.NoMemory two_builds (Some tree_before) (Some tree_before) (Some []) (Some (codes "1: a ")) }
    ensures file { ¬ IsBegun stop.FileFault two_builds (Some tree_before) (Some tree_before) (Some []) (Some (codes "1: a ")) }
{}

/// A fault stops at a deed of its own: one of the sink at a line, so the file before it is written by then, and one of the
/// files at a file, so no line is there in part. Want of memory may stop before anything is done, and behind all.
pub fn stops_at_its_own_deed()
    ensures sink { ¬ IsBegun stop.SinkFault two_builds (Some tree_before) (Some tree_before) (Some []) (Some []) }
    ensures file { ¬ IsBegun stop.FileFault two_builds (Some tree_before) (Some tree_behind) (Some []) (Some (codes "1: a 2:")) }
    ensures first { IsBegun stop.NoMemory two_builds (Some tree_before) (Some tree_before) (Some []) (Some []) }
    ensures last { IsBegun stop.NoMemory two_builds (Some tree_before) (Some tree_behind) (Some []) (Some (codes "1: a 2: b ")) }
{}
