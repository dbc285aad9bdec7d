// Which line is the newest in service, and the threshold that follows it. Lines in service climb in priority, so the newest
// is the claimed line of highest priority. Functions over the chip: as methods of the controller, each would speak of a controller
// for what is its chip's alone.
ghost use Rattle.std.specs.Prelude.{◌≡◌};
ghost use Rattle.controller.specs.Rules.{newest};
ghost use Rattle.plic.specs.Chip.{gate};
ghost use Rattle.plic_controller.specs.Told.{stack_of};
ghost use Rattle.plic_controller.specs.Sound.{Settled};
ghost use Rattle.plic_controller.specs.Steps.{served_key, ServedKeys, ClaimsSignalled, Follows};

use crate::registers;
use arbiter::{Priority, winner};
use plic::{Gateway, Plic, Request};

// The key under which a line in service contends to be the newest.
fn key(gateway: Gateway) -> Option<Priority>
    ensures { result ≡ served_key gateway }
{
    let serves = gateway.request == Request::Claimed;
    serves.then_some(Priority(gateway.priority))
}

// A leaf for each number: the key of a line in service, or nothing.
fn keys(chip: &Plic<64>) -> [Option<Priority>; 64]
    ensures { ServedKeys chip.now result }
{
    // Not `std::array::from_fn`: tried; for 64 places the check proves it, but so close to the prover's limit that the gate refuses it.
    let mut leaves = [None; 64];
    for (n, leaf) in leaves.iter_mut().enumerate() {
        *leaf = key(chip.gateway(n as u16));
    }
    leaves
}

// The newest line in service.
pub(crate) fn newest(chip: &Plic<64>) -> Option<u16>
    ensures { Settled chip.now → result ≡ newest (stack_of (gate 64 chip.now)) }
{
    winner(&keys(chip)).map(|n| n as u16)
}

// Sets the threshold to the priority of the newest line, or to 0 if nothing is in service.
pub(crate) fn follow(chip: &mut Plic<64>, newest: Option<u16>)
    ensures { Follows chip.old newest chip.new }
{
    // Not `map_or`: tried; its closure holds the chip, and what it leaves of the chip is lost to the proof.
    let level = match newest {
        Some(n) => registers::priority(chip, n),
        None => 0,
    };
    registers::set_threshold(chip, level);
}

// Claims the first source while the PLIC signals, and none otherwise.
pub(crate) fn claim_signalled(chip: &mut Plic<64>) -> Option<u16>
    ensures { ClaimsSignalled chip.old result chip.new }
{
    if chip.signal() {
        registers::claim(chip)
    } else {
        None
    }
}
