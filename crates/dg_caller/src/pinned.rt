//! The revision that is asked.
ghost use Rattle.std.specs.Prelude.{◌≡◌, Some, is_some, true, IfOk};
ghost use Rattle.dg_play.specs.Sessions.{revision_at};
ghost use Rattle.dg_caller.specs.Calls.{live_in, view_of};

use crate::caller::CallerEditor;
use dg_line::{LineName, Ticket};
use dg_worker::JobMark;
use std::alloc::AllocError;
use std::sync::Wait;

/// The ticket of a live pin, or that of the current revision.
pub(crate) fn ticket_at<J: LineName, R: Wait + Drop>(
    editor: &CallerEditor<J, R>,
    pins: &[Option<Ticket<JobMark<J>>>],
    pin: Option<u32>,
) -> Result<Ticket<JobMark<J>>, AllocError>
    requires { is_some (revision_at (view_of editor.now pins.now) pin) ≡ true }
    ensures { IfOk result (λ t. revision_at (view_of editor.now pins.now) pin ≡ Some t.revision) }
{
    match pin {
        None => editor.ticket().share(),
        Some(number) => pinned_at(pins, number),
    }
}

// The ticket of a live pin.
fn pinned_at<J: LineName>(
    pins: &[Option<Ticket<JobMark<J>>>],
    pin: u32,
) -> Result<Ticket<JobMark<J>>, AllocError>
    requires { is_some (live_in pins.now pin) ≡ true }
    ensures { IfOk result (λ t. live_in pins.now pin ≡ Some t.revision) }
{
    match pins.get(pin as usize) {
        Some(Some(ticket)) => ticket.share(),
        _ => unreachable!(),
    }
}
