// How urgent each line of a unit is: its class, written out from the unit's making and not asked of the unit.

// The numbers that a unit of this program may have.
pub(crate) const NUMBERS: usize = 256;

#[derive(Clone, Copy)]
pub(crate) struct Urgency([u8; NUMBERS]);

impl Urgency {
    // On an 8259A the class is the level.
    pub(crate) fn of_8259a() -> Urgency {
        let mut classes = [0; NUMBERS];
        for (class, level) in classes.iter_mut().zip(0..8u8) {
            *class = level;
        }
        Urgency(classes)
    }

    // On a PLIC the greater priority is the smaller class.
    pub(crate) fn of_plic(priorities: &[u8; 64]) -> Urgency {
        let mut classes = [0; NUMBERS];
        for (class, priority) in classes.iter_mut().zip(priorities) {
            *class = 7 - priority % 8;
        }
        Urgency(classes)
    }

    // On a pile the inner's lines, from the outer's width on, have the class of the line that the inner hangs from.
    pub(crate) fn piled(self, width: usize, k: usize) -> Urgency {
        let Urgency(mut classes) = self;
        let class = classes.get(k).copied().unwrap_or(0);
        for inner in classes.iter_mut().skip(width) {
            *inner = class;
        }
        Urgency(classes)
    }

    pub(crate) fn class(&self, line: u16) -> u8 {
        let Urgency(classes) = self;
        classes.get(usize::from(line)).copied().unwrap_or(0)
    }
}
