//! A payload, from which the parts of a one-shot are read again after a restart.

ghost use Rattle.std.specs.Prelude.{◌≡◌, IfSome};
ghost use Rattle.tab_server.specs.Rereading.{parts_in};

use std::alloc::{AllocError, Global};
use tab_etf::decode;
use tab_model::{Command, Part};
use tab_oneshot::Source;
use tab_proto::read_command;

/// The bytes of a payload, and the memory for what is read from them.
#[derive(Clone, Copy)]
pub struct Payload<'a> {
    pub alloc: Global,
    pub bytes: &'a [u8],
}

impl<'a> Source for Payload<'a> {
    ghost use Rattle.tab_server.specs.Rereading.{GivesParts};

    ghost gives = { λ x parts. GivesParts x.bytes.now parts };

    fn again(&self) -> Result<Vec<Part>, AllocError> {
        let Ok(held) = decode(self.alloc, self.bytes) else {
            return Err(AllocError);
        };
        let Ok(command) = read_command(self.alloc, held) else {
            return Err(AllocError);
        };
        match parts_of(command) {
            Some(parts) => Ok(parts),
            None => Err(AllocError),
        }
    }
}

/// The parts of a one-shot, which no one else holds.
fn parts_of(command: Command) -> Option<Vec<Part>>
    ensures { IfSome result (λ parts. parts_in command ≡ parts.items) }
{
    let Command::OneShot(parts, _) = command else {
        return None;
    };
    parts.into_vec()
}
