//! A payload, from which the parts of a one-shot are read again after a restart.

ghost use Rattle.std.specs.Prelude.{◌≡◌, IfSome};
ghost use Rattle.tab_session.specs.Rereading.{parts_in};

use std::alloc::AllocError;
use std::sync::Wait;
use tab_etf::decode;
use tab_model::{Ask, Command, Part};
use tab_oneshot::Source;
use tab_proto::read_request;

/// The bytes of a payload, and the runtime: the memory for what is read from them, and what its steps wait by.
#[derive(Drop)]
pub struct Payload<'a, R> {
    pub rt: &'a R,
    pub bytes: &'a [u8],
}

impl<'a, R: AllocGlobal + Wait> Source for Payload<'a, R> {
    ghost use Rattle.tab_session.specs.Rereading.{GivesParts};

    ghost gives = { λ x parts. GivesParts x.bytes.now parts };

    fn again(&self) -> Result<Vec<Part>, AllocError> {
        let Ok(held) = decode(self.rt.alloc(), self.bytes) else {
            return Err(AllocError);
        };
        let Ok((_session, request)) = read_request(self.rt.alloc(), held) else {
            return Err(AllocError);
        };
        match parts_of(request) {
            Some(parts) => Ok(parts),
            None => Err(AllocError),
        }
    }
}

/// The parts of a one-shot, which no one else holds.
fn parts_of(request: Ask<()>) -> Option<Vec<Part>>
    ensures { IfSome result (λ parts. parts_in request ≡ parts.items) }
{
    let Ask::Do(Command::OneShot(parts, _)) = request else {
        return None;
    };
    parts.into_vec()
}
