// The pile: an outer controller, a line k of it, and the inner one that hangs from k.
ghost use Rattle.std.specs.Prelude.{◌≡◌, ◌+◌, ◌%◌};
ghost use Rattle.std.specs.Fn.{FnOnceReturnsAtMut};
ghost use Rattle.controller.specs.Meaning.{Keeps};
ghost use Rattle.controller.specs.Rules.{Rises, Falls, Opens, Shuts, Finishes, Untouched};
ghost use Rattle.controller.specs.Telling.{meaning};
ghost use Rattle.cascade.specs.Fit.{Makes};
ghost use Rattle.cascade.specs.Parts.{part_of};
ghost use Rattle.cascade.specs.Tie.{Tells};
ghost use Rattle.cascade.specs.Inside.{KeepsBoth, Informs};
ghost use Rattle.cascade.specs.Told.{meant, Sound, Unmoved};
ghost use Rattle.cascade.specs.Lawful.{told-lawful};

use crate::fit::check;
use controller::{Answer, Controller, Refusal};

#[derive(Drop)]
pub struct Cascade<O, I> {
    outer: O,
    // The line of the outer that the inner hangs from, if the two fit.
    k: Option<u16>,
    inner: I,
}

// The part that has a number of the pile. A line of the inner, which hangs from k, has a number m of its own there.
#[derive(Clone, Copy)]
enum Part {
    Outer,
    Inner { k: u16, m: u16 },
}

impl<O: Controller, I: Controller> Cascade<O, I> {
    // The pile of two controllers. Two that do not fit make one with no line, on which no call does anything.
    pub fn new(mut outer: O, k: u16, mut inner: I) -> Cascade<O, I>
        ensures sound { O.Controller.sound outer → I.Controller.sound inner → Sound O.Controller I.Controller result }
        ensures makes { O.Controller.sound outer → I.Controller.sound inner → Makes (meaning O.Controller outer) k (meaning I.Controller inner) (meant O.Controller I.Controller result) }
    {
        // The early way out is that of parts that do not fit.
        if check(&mut outer, k, &mut inner).is_err() {
            return Cascade {
                outer,
                k: None,
                inner,
            };
        }
        // A line of the outer is opened without fail.
        let _ = outer.open(k);
        tell(&mut outer, k, &inner);
        Cascade {
            outer,
            k: Some(k),
            inner,
        }
    }

    // The part that has number n.
    fn part(&self, n: u16) -> Result<Part, Refusal>
        ensures { Sound O.Controller I.Controller self.now → result ≡ part_of self.now.k (O.Controller.widths self.now.outer) n }
    {
        let k = self.k.ok_or(Refusal::NotALine)?;
        if n == k {
            return Err(Refusal::NotALine);
        }
        let width = self.outer.width();
        if n < width {
            Ok(Part::Outer)
        } else {
            Ok(Part::Inner { k, m: n - width })
        }
    }

    // The number in the pile of the inner's line m. Wrapping: no sum overflows while the parts fit.
    fn number(&self, m: u16) -> u16
        ensures { O.Controller.sound self.now.outer → result ≡ (O.Controller.widths self.now.outer + m) % 65536 }
    {
        self.outer.width().wrapping_add(m)
    }

    // A call of the inner, after which the outer is told of k. What the inner refuses changes nothing, and the outer is told
    // of nothing.
    fn inside<F: FnOnce(&mut I) -> Result<Answer, Refusal>>(
        &mut self,
        k: u16,
        call: F,
    ) -> Result<Answer, Refusal>
        requires { F.IsAlwaysCallable call }
        ensures calls { FnOnceReturnsAtMut F.FnOnce call self.old.inner result self.new.inner }
        ensures informs { Informs O.Controller I.Controller k result self.old.outer self.new.inner self.new.outer }
        ensures same { self.new.k ≡ self.old.k }
    {
        let answer = call(&mut self.inner)?;
        tell(&mut self.outer, k, &self.inner);
        Ok(answer)
    }
}

impl<O: Controller, I: Controller> Controller for Cascade<O, I> {
    // Ten members, as the trait is to have them, each of the one value that is meant.
    ghost widths = { λ p. (meant O.Controller I.Controller p).fixed.width };

    ghost spans = { λ p. (meant O.Controller I.Controller p).fixed.span };

    ghost lines = { λ p. (meant O.Controller I.Controller p).fixed.line };

    ghost classes = { λ p. (meant O.Controller I.Controller p).fixed.class };

    ghost fleets = { λ p. (meant O.Controller I.Controller p).fixed.fleeting };

    ghost ranks = { λ p. (meant O.Controller I.Controller p).fixed.rank };

    ghost opened = { λ p. (meant O.Controller I.Controller p).state.opened };

    ghost highs = { λ p. (meant O.Controller I.Controller p).state.high };

    ghost waits = { λ p. (meant O.Controller I.Controller p).state.waiting };

    ghost stack = { λ p. (meant O.Controller I.Controller p).state.stack };

    ghost sound = { Sound O.Controller I.Controller };

    ghost lawful = { told-lawful {S = O} {T = I}
        (record { widths = O.Controller.widths; spans = O.Controller.spans; lines = O.Controller.lines; classes = O.Controller.classes; fleets = O.Controller.fleets; ranks = O.Controller.ranks; opened = O.Controller.opened; highs = O.Controller.highs; waits = O.Controller.waits; stack = O.Controller.stack; sound = O.Controller.sound })
        (record { widths = I.Controller.widths; spans = I.Controller.spans; lines = I.Controller.lines; classes = I.Controller.classes; fleets = I.Controller.fleets; ranks = I.Controller.ranks; opened = I.Controller.opened; highs = I.Controller.highs; waits = I.Controller.waits; stack = I.Controller.stack; sound = I.Controller.sound })
        O.Controller.lawful I.Controller.lawful };

    // Wrapping: of parts that fit neither the sum of the widths nor the product of the spans overflows. A match, not
    // `map_or`, whose closure would take k and not use it, nor `is_some`: the proof goes by the k of the arm.
    fn width(&self) -> u16 {
        match self.k {
            Some(_) => self.outer.width().wrapping_add(self.inner.width()),
            None => 0,
        }
    }

    fn span(&self) -> u32 {
        match self.k {
            Some(_) => self.outer.span().wrapping_mul(self.inner.span()),
            None => 1,
        }
    }

    // Here and below a refusal is an arm beside the parts: with `is_ok_and` the match would stand in a closure.
    fn there(&self, n: u16) -> bool {
        match self.part(n) {
            Ok(Part::Outer) => self.outer.there(n),
            Ok(Part::Inner { m, .. }) => self.inner.there(m),
            Err(_) => false,
        }
    }

    fn fleeting(&self, n: u16) -> bool {
        match self.part(n) {
            Ok(Part::Outer) => self.outer.fleeting(n),
            Ok(Part::Inner { m, .. }) => self.inner.fleeting(m),
            Err(_) => false,
        }
    }

    fn newest(&mut self) -> Option<u16> {
        let k = self.k?;
        let n = self.outer.newest()?;
        if n != k {
            return Some(n);
        }
        let m = self.inner.newest()?;
        Some(self.number(m))
    }

    fn signal(&self) -> bool {
        self.k.is_some() && self.outer.signal()
    }

    // A call on one line goes to the part that has it, as the two questions about a line do. One function for the four would
    // be handed a closure for each part, and its contract would say all of what `part` and `inside` say: that is no plainer.
    // A call's own clauses stand in place of the trait's, so each repeats them.
    fn rise(&mut self, n: u16) -> Result<Answer, Refusal>
        ensures rule { Keeps (Sound O.Controller I.Controller) (meant O.Controller I.Controller) (λ m m'. Rises m n result m') self.old self.new }
        ensures parts { Unmoved O.Controller I.Controller result self.old self.new }
        ensures refused { Untouched result self.old self.new }
    {
        match self.part(n)? {
            Part::Outer => self.outer.rise(n),
            Part::Inner { k, m } => self.inside(k, |inner| inner.rise(m)),
        }
    }

    fn fall(&mut self, n: u16) -> Result<Answer, Refusal>
        ensures rule { Keeps (Sound O.Controller I.Controller) (meant O.Controller I.Controller) (λ m m'. Falls m n result m') self.old self.new }
        ensures parts { Unmoved O.Controller I.Controller result self.old self.new }
        ensures refused { Untouched result self.old self.new }
    {
        match self.part(n)? {
            Part::Outer => self.outer.fall(n),
            Part::Inner { k, m } => self.inside(k, |inner| inner.fall(m)),
        }
    }

    fn open(&mut self, n: u16) -> Result<Answer, Refusal>
        ensures rule { Keeps (Sound O.Controller I.Controller) (meant O.Controller I.Controller) (λ m m'. Opens m n result m') self.old self.new }
        ensures parts { Unmoved O.Controller I.Controller result self.old self.new }
        ensures refused { Untouched result self.old self.new }
    {
        match self.part(n)? {
            Part::Outer => self.outer.open(n),
            Part::Inner { k, m } => self.inside(k, |inner| inner.open(m)),
        }
    }

    fn shut(&mut self, n: u16) -> Result<Answer, Refusal>
        ensures rule { Keeps (Sound O.Controller I.Controller) (meant O.Controller I.Controller) (λ m m'. Shuts m n result m') self.old self.new }
        ensures parts { Unmoved O.Controller I.Controller result self.old self.new }
        ensures refused { Untouched result self.old self.new }
    {
        match self.part(n)? {
            Part::Outer => self.outer.shut(n),
            Part::Inner { k, m } => self.inside(k, |inner| inner.shut(m)),
        }
    }

    // If the outer takes k, the inner has a ready line.
    fn take(&mut self) -> Option<u16> {
        let k = self.k?;
        let n = self.outer.take()?;
        if n != k {
            return Some(n);
        }
        let taken = self.inner.take();
        tell(&mut self.outer, k, &self.inner);
        let line = taken?;
        Some(self.number(line))
    }

    // An inner line is the newest only while k is the outer's newest; it is finished inside, and then k outside.
    fn finish(&mut self, n: u16) -> Result<Answer, Refusal>
        ensures rule { Keeps (Sound O.Controller I.Controller) (meant O.Controller I.Controller) (λ m m'. Finishes m n result m') self.old self.new }
        ensures parts { Unmoved O.Controller I.Controller result self.old self.new }
        ensures refused { Untouched result self.old self.new }
    {
        match self.part(n)? {
            Part::Outer => self.outer.finish(n),
            Part::Inner { k, m } => {
                if !self.inner.there(m) {
                    return Err(Refusal::NotALine);
                }
                if self.outer.newest() != Some(k) {
                    return Err(Refusal::NotNewest);
                }
                let answer = self.inside(k, |inner| inner.finish(m))?;
                // Not refused: k is the outer's newest.
                let _ = self.outer.finish(k);
                Ok(answer)
            }
        }
    }
}

// Tells the outer that k rises if the inner signals, else that k falls; k is a line, so neither is refused. No method: of the pile it would
// have to say besides what it leaves alone.
fn tell<O: Controller, I: Controller>(outer: &mut O, k: u16, inner: &I)
    ensures { KeepsBoth O.Controller I.Controller (λ a b a' _. Tells a k b a') outer.old inner.now outer.new inner.now }
{
    let _ = if inner.signal() {
        outer.rise(k)
    } else {
        outer.fall(k)
    };
}
