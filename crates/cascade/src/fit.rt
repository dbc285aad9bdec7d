// Whether two controllers can be hung together.
ghost use Rattle.std.specs.Prelude.{◌≡◌};
ghost use Rattle.controller.specs.Telling.{meaning};
ghost use Rattle.cascade.specs.Fit.{is_small, Checks};

use controller::{Controller, Refusal};

// The greatest width and span that a controller may have.
const MOST_WIDTH: u32 = 256;

const MOST_SPAN: u64 = 0x8000_0000;

// Asks whether the inner can be hung from line k of the outer: is k a fleeting line, is nothing in service in either, are
// they small enough together? Both are as they were. The three are passed one by one, since they are no pile yet.
pub fn check<O: Controller, I: Controller>(
    outer: &mut O,
    k: u16,
    inner: &mut I,
) -> Result<(), Refusal>
    ensures answer { O.Controller.sound outer.old → I.Controller.sound inner.old → Checks (meaning O.Controller outer.old) k (meaning I.Controller inner.old) result }
    ensures outer { outer.new ≡ outer.old }
    ensures inner { inner.new ≡ inner.old }
{
    if !outer.fleeting(k) {
        return Err(Refusal::NotAFleetingLine);
    }
    if outer.newest().is_some() || inner.newest().is_some() {
        return Err(Refusal::PartInService);
    }
    if !small(outer, inner) {
        return Err(Refusal::TooLarge);
    }
    Ok(())
}

// Whether the widths add up, and the spans multiply, to no more than a controller may have.
fn small<O: Controller, I: Controller>(outer: &O, inner: &I) -> bool
    ensures { O.Controller.sound outer.now → I.Controller.sound inner.now → result ≡ is_small (meaning O.Controller outer.now) (meaning I.Controller inner.now) }
{
    let width = u32::from(outer.width()) + u32::from(inner.width());
    let span = u64::from(outer.span()) * u64::from(inner.span());
    width <= MOST_WIDTH && span <= MOST_SPAN
}
