// Registers of 32 bits, one bit to a source: bit i of word w is source 32 × w + i.
ghost use Rattle.std.specs.Prelude.{◌≡◌, ◌<◌, Bool};
ghost use Rattle.plic.specs.declared.gateway.Gateway.{Gateway};
ghost use Rattle.plic.specs.Words.{Word, Enables, Tells, shown};

use crate::gateway::{Gateway, is_source};

// What `shows` tells of source n; what is no source shows nothing.
fn shown<F: Fn(Gateway) -> bool, const N: usize>(
    gateways: &[Gateway; N],
    shows: &F,
    n: usize,
) -> bool
    requires { F.IsAlwaysCallable shows.now }
    ensures { (told : Gateway → Bool) → Tells (F.post shows.now) told → result ≡ shown N gateways.now told n }
{
    is_source::<N>(n) && shows(gateways[n])
}

// Word w of the bits that `shows` tells, put together from its highest bit down.
pub(crate) fn word<F: Fn(Gateway) -> bool, const N: usize>(
    gateways: &[Gateway; N],
    shows: F,
    w: usize,
) -> u32
    requires within { w < 32 }
    requires callable { F.IsAlwaysCallable shows }
    ensures { (told : Gateway → Bool) → Tells (F.post shows) told → Word N gateways.now told w result }
{
    // Not `fold`: its closure, in a generic function, would need two clauses of its own, one of them that the sum fits.
    let mut value = 0;
    for i in (0..32).rev() {
        let on = shown(gateways, &shows, 32 * w + i);
        value = 2 * value + u32::from(on);
    }
    value
}

// Writes word w of the enable bits, over its own 32 numbers alone. A bit of the value is shown as the 8259A's levels and a trace's map
// are, each in its own crate.
pub(crate) fn enable<const N: usize>(gateways: &mut [Gateway; N], w: usize, value: u32)
    requires { w < 32 }
    ensures { Enables N gateways.old w value gateways.new }
{
    // By number: a slice of the word's sources would need its two ends worked out, and proved to lie in the table, which is no plainer.
    for n in 32 * w..32 * w + 32 {
        if is_source::<N>(n) {
            gateways[n].set_enabled((value >> (n % 32)) % 2 == 1);
        }
    }
}
