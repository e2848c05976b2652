// The register that binds no name.
ghost use Rattle.registers.specs.Meaning.{nothing};
ghost use Rattle.registers.specs.Soundness.{nothing_sound};

use crate::register::{ROOM, Register};
use crate::told::Told;
use types::entries::TypeEntry;

#[derive(Clone, Copy)]
pub struct Empty;

impl Register for Empty {
    ghost meaning = { λ _. nothing };

    ghost sound = { λ _. nothing_sound };

    fn ask(&self, _name: &[u8], _room: &mut [TypeEntry; ROOM]) -> Option<Told> {
        None
    }
}
