//! Laws of build files: each function here has an empty body, and its contract states what holds of every sound graph.
ghost use Rattle.dg_build_laws.specs.Laws.{BuildFilesHavePaths, BuildFilesStayBelow, BuildFilesDiffer};

/// Each build file of what a node's output `build` gives has a project path: it begins with a slash, and no segment is
/// empty, one point or two points. Behind the path of a folder it has one too, so a file that is written there stays
/// below that folder.
pub fn build_files_stay_below()
    ensures paths { BuildFilesHavePaths }
    ensures below { BuildFilesStayBelow }
{}

/// No two build files of what a node's output `build` gives have one path, so none is written in another's place.
pub fn build_files_differ()
    ensures { BuildFilesDiffer }
{}
