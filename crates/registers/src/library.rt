// The register of the names that every sheet may use.
ghost use Rattle.registers.specs.Library.{library};
ghost use Rattle.registers.specs.Soundness.{library_sound};

use crate::register::{ROOM, Register};
use crate::standing::told;
use crate::table::standing_of;
use crate::told::Told;
use types::entries::TypeEntry;

#[derive(Clone, Copy)]
pub struct Library;

impl Register for Library {
    ghost meaning = { λ _. library };

    ghost sound = { λ _. library_sound };

    fn ask(&self, name: &[u8], room: &mut [TypeEntry; ROOM]) -> Option<Told> {
        let standing = standing_of(name)?;
        Some(told(standing, room))
    }
}
