// A controller: anything that tells the ten things below, `widths` to `stack`, and whose calls do as the rules say.
ghost use Rattle.std.specs.Prelude.{◌≡◌, ℕ, Bool, ◌&&◌, List};
ghost use Rattle.controller.specs.Meaning.{told, Lawful, Keeps};
ghost use Rattle.controller.specs.Rules.{Rises, Falls, Opens, Shuts, Takes, Finishes, Untouched, Signals, newest};

use crate::answer::Answer;
use crate::refusal::Refusal;

pub trait Controller {
    // Fixed at the making: width, span, and of each number whether it is a line, its class, fall rule and rank.
    ghost widths: { Self → ℕ };

    ghost spans: { Self → ℕ };

    ghost lines: { Self → ℕ → Bool };

    ghost classes: { Self → ℕ → ℕ };

    ghost fleets: { Self → ℕ → Bool };

    ghost ranks: { Self → ℕ → ℕ };

    // What changes: the open, high and waiting marks, and the stack, newest first.
    ghost opened: { Self → ℕ → Bool };

    ghost highs: { Self → ℕ → Bool };

    ghost waits: { Self → ℕ → Bool };

    ghost stack: { Self → List ℕ };

    // The sound states: each making gives one, and each call keeps to them.
    ghost sound: { Self → Type 0 };

    // In each clause below the ten members stand by name: a definition in specs/ that took their record instead would
    // import this trait in a circle.
    fn width(&self) -> u16
        ensures { sound self.now → result ≡ widths self.now };

    fn span(&self) -> u32
        ensures { sound self.now → result ≡ spans self.now };

    // Whether n is a line.
    fn there(&self, n: u16) -> bool
        ensures { sound self.now → result ≡ lines self.now n };

    // Whether n is a fleeting line.
    fn fleeting(&self, n: u16) -> bool
        ensures { sound self.now → result ≡ (lines self.now n && fleets self.now n) };

    // The newest line in service. A chip may have to select a register for this; the value after is the value before.
    fn newest(&mut self) -> Option<u16>
        ensures answer { sound self.old → result ≡ newest (stack self.old) }
        ensures same { self.new ≡ self.old };

    // Whether a line is ready.
    fn signal(&self) -> bool
        ensures { sound self.now → Signals (told widths spans lines classes fleets ranks opened highs waits stack self.now) result };

    fn rise(&mut self, n: u16) -> Result<Answer, Refusal>
        ensures rule { Keeps sound (told widths spans lines classes fleets ranks opened highs waits stack) (λ m m'. Rises m n result m') self.old self.new }
        ensures refused { Untouched result self.old self.new };

    fn fall(&mut self, n: u16) -> Result<Answer, Refusal>
        ensures rule { Keeps sound (told widths spans lines classes fleets ranks opened highs waits stack) (λ m m'. Falls m n result m') self.old self.new }
        ensures refused { Untouched result self.old self.new };

    fn open(&mut self, n: u16) -> Result<Answer, Refusal>
        ensures rule { Keeps sound (told widths spans lines classes fleets ranks opened highs waits stack) (λ m m'. Opens m n result m') self.old self.new }
        ensures refused { Untouched result self.old self.new };

    fn shut(&mut self, n: u16) -> Result<Answer, Refusal>
        ensures rule { Keeps sound (told widths spans lines classes fleets ranks opened highs waits stack) (λ m m'. Shuts m n result m') self.old self.new }
        ensures refused { Untouched result self.old self.new };

    fn take(&mut self) -> Option<u16>
        ensures { Keeps sound (told widths spans lines classes fleets ranks opened highs waits stack) (λ m m'. Takes m result m') self.old self.new };

    fn finish(&mut self, n: u16) -> Result<Answer, Refusal>
        ensures rule { Keeps sound (told widths spans lines classes fleets ranks opened highs waits stack) (λ m m'. Finishes m n result m') self.old self.new }
        ensures refused { Untouched result self.old self.new };

    // In a sound state the laws hold.
    ghost lawful: { (c : Self) → sound c → Lawful (told widths spans lines classes fleets ranks opened highs waits stack c) };
}
