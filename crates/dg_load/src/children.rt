//! The children that instances name.
ghost use Rattle.std.specs.Prelude.{◌≡◌, OnOk, fold};
ghost use Rattle.dg_load.specs.Children.{child_connected, children_connected};

use crate::collections::Site;
use crate::draft::Draft;
use crate::named::Named;
use crate::state::{Child, Instance, Load};
use dg_labels::labels;
use dg_sources::BadCode;
use std::alloc::{AllocError, Global};

impl Load {
    /// Connects the children that the instances name to them.
    pub(crate) fn connect_children(&mut self, alloc: Global, site: &Site) -> Result<(), AllocError>
        ensures { OnOk result (self.new ≡ children_connected site.now self.old) }
    {
        self.draft
            .connect_all(alloc, site, &self.instances, self.children.as_slice())
    }
}

impl Draft {
    fn connect_all(
        &mut self,
        alloc: Global,
        site: &Site,
        instances: &Named<Instance>,
        children: &[Child],
    ) -> Result<(), AllocError>
        ensures { OnOk result (self.new ≡ fold (child_connected site.now instances.now) self.old children.now) }
    {
        for child in children {
            self.connect_child(alloc, site, instances, child)?;
        }
        Ok(())
    }

    fn connect_child(
        &mut self,
        alloc: Global,
        site: &Site,
        instances: &Named<Instance>,
        child: &Child,
    ) -> Result<(), AllocError>
        ensures { OnOk result (self.new ≡ child_connected site.now instances.now self.old child.now) }
    {
        match instances.find(child.id.as_str()) {
            Some(instance) => {
                self.connect(instance.node, labels::ID, child.parent, labels::CHILDREN)
            }
            None => self.note(alloc, site.path.as_str(), child.line, BadCode::Absent),
        }
    }
}
