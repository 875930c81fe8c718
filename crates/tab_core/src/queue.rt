//! Operations that wait for their lock.

ghost use Rattle.std.specs.Prelude.{◌≡◌, map, option_map};
ghost use Rattle.std.specs.Option.{option_copied};
ghost use Rattle.tab_model.specs.State.{request_in};
ghost use Rattle.tab_core.specs.Parts.{queued_of};

use tab_model::Operation;

/// An operation of a session that waits for its lock.
pub(crate) struct Request {
    pub session: u32,
    pub age: u64,
    pub operation: Operation,
}

// A derived Drop would be expanded, variant by variant, at each exit of each caller.
impl Drop for Request {
    fn drop(self) {
        let Request {
            session: _,
            age: _,
            operation,
        } = self;
        drop(operation);
    }
}

/// The request of a session, if it waits.
pub(crate) fn find(queue: &[Request], session: u32) -> Option<&Request>
    ensures { request_in (map queued_of queue.now) session
        ≡ option_map queued_of (option_copied result) }
{
    for request in queue {
        if request.session == session {
            return Some(request);
        }
    }
    None
}
