// The unit with two 8259A chips.
ghost use Rattle.cascade.specs.Told.{meant, Sound};
ghost use Rattle.i8259a_controller.specs.Members.{members};
ghost use Rattle.units.specs.Old.{OldUnit};

use cascade::Cascade;
use i8259a_controller::I8259aController;

// The master's line from the slave.
const SLAVE: u16 = 2;

// Two 8259A controllers, the slave on line 2 of the master: lines 0, 1 and 3 to 7 are the master's, 8 to 15 the slave's.
pub fn old_unit() -> Cascade<I8259aController, I8259aController>
    ensures sound { Sound members members result }
    ensures told { OldUnit (meant members members result) }
{
    let master = I8259aController::new();
    let slave = I8259aController::new();
    Cascade::new(master, SLAVE, slave)
}
