//! A project and a script from a seed and a size.
ghost use Rattle.std.specs.Prelude.{◌≡◌, ◌≤◌, IfOk};
ghost use Rattle.dg_files.specs.Kept.{tree_of};
ghost use Rattle.dg_gen.specs.Project.{project_files, project_script};

use crate::draws::draws;
use crate::files::files_of;
use crate::generated::Project;
use crate::script::script_of;
use std::alloc::{AllocError, Global};

/// The project and the script of a seed and a size: so many scripts, game objects of them, and collections, each of
/// which but the first has the one before in it, and a script of so many rounds of edits, undos and questions. The seed
/// counts modulo 2^31. It takes time linear in the size.
pub fn project(alloc: Global, seed: u64, size: u32) -> Result<Project, AllocError>
    requires { 1 ≤ size }
    ensures files { IfOk result (λ p. tree_of p.files.items ≡ project_files seed size) }
    ensures script { IfOk result (λ p. p.script.items ≡ project_script seed size) }
{
    let draws = draws(alloc, seed, 3 * size as usize - 1 + 2 * size as usize)?;
    let files = files_of(alloc, draws.as_slice(), size)?;
    let script = script_of(alloc, draws.as_slice(), size)?;
    Ok(Project { files, script })
}
