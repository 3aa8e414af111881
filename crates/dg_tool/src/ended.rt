//! What a run leaves.
ghost use Rattle.std.specs.Prelude.{◌≡◌};
ghost use Rattle.std.specs.Option.{option_map};
ghost use Rattle.dg_tool.specs.declared.ended.ToolDesk.TheVariants as tool;

use crate::status::Status;
use dg_alone::AloneDesk;

/// How a run ended, and the cache of a script that was played to its end, with the records of all that was done with it.
#[derive(Drop)]
pub struct Ended<D> {
    pub status: Status,
    pub desk: Option<D>,
}

/// The cache of a script: of one that was played on one thread, or of one that workers shared.
#[derive(Drop)]
pub enum ToolDesk<S> {
    Alone(AloneDesk),
    Shared(S),
}

/// A run on one thread, as one of the tool.
pub(crate) fn of_alone<S: Drop>(ended: Ended<AloneDesk>) -> Ended<ToolDesk<S>>
    ensures status { result.status ≡ ended.status }
    ensures desk { result.desk ≡ option_map tool.Alone ended.desk }
{
    Ended {
        status: ended.status,
        desk: match ended.desk {
            Some(desk) => Some(ToolDesk::Alone(desk)),
            None => None,
        },
    }
}

/// A run beside workers, as one of the tool.
pub(crate) fn of_shared<S: Drop>(ended: Ended<S>) -> Ended<ToolDesk<S>>
    ensures status { result.status ≡ ended.status }
    ensures desk { result.desk ≡ option_map tool.Shared ended.desk }
{
    Ended {
        status: ended.status,
        desk: match ended.desk {
            Some(desk) => Some(ToolDesk::Shared(desk)),
            None => None,
        },
    }
}
