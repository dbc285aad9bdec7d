// A look at a register through port 0, which puts the read select back on every way out.
ghost use Rattle.std.specs.Prelude.{◌≡◌};
ghost use Rattle.i8259a.specs.Chip.{shown, shows};

use crate::bits::bit;
use crate::chip::{I8259a, ReadSelect, Register, level_of};

// Holds the chip's read select while another register is selected, and restores it at its end.
struct Restore<'a> {
    select: &'a mut ReadSelect,
    saved: Register,
}

impl Restore<'_> {
    // Selects the register until the guard's end.
    fn selecting(select: &mut ReadSelect, register: Register) -> Restore<'_>
        ensures same { result.select.ghost_name ≡ select.entry.ghost_name }
        ensures saved { result.saved ≡ select.old.register }
        ensures selects { result.select.now ≡ record { register = register } }
    {
        let saved = select.register;
        select.register = register;
        Restore { select, saved }
    }
}

impl Drop for Restore<'_> {
    fn drop(self)
        ensures { self.exit.0.now.register ≡ self.entry.saved }
    {
        self.select.register = self.saved;
        let Restore {
            select: _,
            saved: _,
        } = self;
    }
}

impl I8259a {
    // What port 0 reads as while the register is selected.
    pub fn look(&mut self, register: Register) -> u8
        ensures answer { result ≡ shown register self.old.irr self.old.isr }
        ensures after { self.new ≡ self.old }
    {
        let guard = Restore::selecting(&mut self.select, register);
        guard.select.shown(self.irr, self.isr)
    }

    // Whether port 0 shows the bit of level n while the register is selected; it shows none above level 7.
    pub fn shows(&mut self, register: Register, n: u16) -> bool
        ensures answer { result ≡ shows self.old register n }
        ensures after { self.new ≡ self.old }
    {
        // Under a guard of its own, and not by way of `look`: that the select is put back on an early way out, too, is to be seen here.
        let restore = Restore::selecting(&mut self.select, register);
        let Ok(level) = level_of(n) else {
            return false;
        };
        bit(restore.select.shown(self.irr, self.isr), level)
    }
}
