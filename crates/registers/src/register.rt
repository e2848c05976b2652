// The one interface of every register.
ghost use Rattle.registers.specs.Meaning.{Meaning, Sound};
ghost use Rattle.registers.specs.Telling.{Tells};

use crate::told::Told;
use types::entries::TypeEntry;

// How many entries a register may write of an answer: the parts of the type that it tells. The caller lends an array of
// them, since checking allocates nothing.
pub const ROOM: usize = 128;

pub trait Register {
    // The partial function from names to bindings that the register stands for.
    ghost meaning: { Self → Meaning };

    // Every binding is one that a register may have.
    ghost sound: { (r : Self) → Sound (meaning r) };

    // What `name` is bound to, or `None` where it is not bound. The parts of a type are written into `room`.
    fn ask(&self, name: &[u8], room: &mut [TypeEntry; ROOM]) -> Option<Told>
        ensures { Tells (meaning self.now name.now) result room.new };
}

// A register that is lent stands for what it stands for.
impl<R: Register> Register for &R {
    ghost meaning = { λ r. R.Register.meaning r.now };

    ghost sound = { λ r. R.Register.sound r.now };

    fn ask(&self, name: &[u8], room: &mut [TypeEntry; ROOM]) -> Option<Told> {
        (**self).ask(name, room)
    }
}
