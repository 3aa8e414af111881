//! A law of the projects that are made.
ghost use Rattle.dg_gen.specs.Laws.{GeneratedPathsDiffer};

/// No two files of a project have one path, so that as many files are written as are made: for every seed, and for every
/// size whose files have numbers of at most 64 digits, as decimals have.
pub fn generated_paths_differ()
    ensures { GeneratedPathsDiffer }
{}
