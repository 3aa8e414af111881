//! Scripts.
ghost use Rattle.std.specs.Prelude.{◌≡◌, OnOk, fold};
ghost use Rattle.dg_load.specs.Scripts.{script, scripts};

use crate::state::Load;
use dg_labels::kinds;
use dg_sources::ScriptSource;
use std::alloc::{AllocError, Global};

impl Load {
    /// The nodes of all scripts.
    pub(crate) fn scripts(
        &mut self,
        alloc: Global,
        sources: &[ScriptSource],
    ) -> Result<(), AllocError>
        ensures { OnOk result (self.new ≡ scripts sources.now self.old) }
    {
        for source in sources {
            self.script(alloc, source)?;
        }
        Ok(())
    }

    fn script(&mut self, alloc: Global, source: &ScriptSource) -> Result<(), AllocError>
        ensures { OnOk result (self.new ≡ script self.old source.now) }
    {
        let path = source.path.as_str();
        let node = self.draft.make_file(alloc, kinds::SCRIPT_FILE, path)?;
        match &source.read {
            Err(why) => self.draft.refuse(alloc, node, path, *why)?,
            Ok(declared) => self.draft.declare(alloc, node, declared.as_slice())?,
        }
        self.scripts.put(path, node)
    }
}
