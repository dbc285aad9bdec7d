// The controller: a chip that is set up, behind the calls of every controller.
ghost use Rattle.std.specs.Prelude.{◌≡◌, ◌&&◌};
ghost use Rattle.controller.specs.Laws.{RuleLaws};
ghost use Rattle.controller.specs.Meaning.{Keeps};
ghost use Rattle.controller.specs.Rules.{Rises, Falls, Opens, Shuts, Takes, Finishes, Untouched, newest};
ghost use Rattle.i8259a.specs.Chip.{risen, fallen};
ghost use Rattle.i8259a_controller.specs.Told.{meant, Sound, made, fresh};
ghost use Rattle.i8259a_controller.specs.Steps.{opened_chip, shut_chip, finished_chip, TakesLevel};
ghost use Rattle.i8259a_controller.specs.Lawful;

use crate::steps;
use crate::steps::Line;
use controller::{Answer, Controller, Refusal};
use i8259a::{I8259a, Register, level_of, set_up};

#[derive(Drop)]
pub struct I8259aController {
    chip: I8259a,
}

impl I8259aController {
    // A chip that is set up, with every level masked: all lines are shut, low and idle. Whoever makes a controller learns
    // what the rules of its calls come to.
    pub fn new() -> I8259aController
        ensures sound { Sound result.chip }
        ensures chip { result.chip ≡ made }
        ensures told { meant result.chip ≡ fresh }
        ensures laws { RuleLaws }
    {
        let mut chip = I8259a::new();
        // Neither is refused: the set-up is in its order, and then port 1 takes the mask.
        let _ = set_up(&mut chip, 0x08, 0x00);
        let _ = chip.write(1, 0xff);
        I8259aController { chip }
    }
}

impl Controller for I8259aController {
    // Ten members, as the trait is to have them, each of the one value that is meant.
    ghost widths = { λ c. (meant c.chip).fixed.width };

    ghost spans = { λ c. (meant c.chip).fixed.span };

    ghost lines = { λ c. (meant c.chip).fixed.line };

    ghost classes = { λ c. (meant c.chip).fixed.class };

    ghost fleets = { λ c. (meant c.chip).fixed.fleeting };

    ghost ranks = { λ c. (meant c.chip).fixed.rank };

    ghost opened = { λ c. (meant c.chip).state.opened };

    ghost highs = { λ c. (meant c.chip).state.high };

    ghost waits = { λ c. (meant c.chip).state.waiting };

    ghost stack = { λ c. (meant c.chip).state.stack };

    ghost sound = { λ c. Sound c.chip };

    ghost lawful = { λ c sound. Lawful.lawful c.chip sound };

    fn width(&self) -> u16 {
        steps::LEVELS
    }

    fn span(&self) -> u32 {
        u32::from(self.width())
    }

    fn there(&self, n: u16) -> bool {
        n < self.width()
    }

    fn fleeting(&self, n: u16) -> bool {
        self.there(n)
    }

    fn newest(&mut self) -> Option<u16> {
        steps::newest(&mut self.chip).map(u16::from)
    }

    fn signal(&self) -> bool {
        self.chip.signal()
    }

    // A call's own clauses stand in place of the trait's: so each repeats the trait's two before the one of its chip.
    fn rise(&mut self, n: u16) -> Result<Answer, Refusal>
        ensures rule { Keeps Sound meant (λ m m'. Rises m n result m') self.old.chip self.new.chip }
        ensures refused { Untouched result self.old self.new }
        ensures chip { self.new.chip ≡ risen self.old.chip n }
    {
        let line = Line::shown(&mut self.chip, n);
        self.chip.rise(n)?;
        Ok(line.rise_answer())
    }

    fn fall(&mut self, n: u16) -> Result<Answer, Refusal>
        ensures rule { Keeps Sound meant (λ m m'. Falls m n result m') self.old.chip self.new.chip }
        ensures refused { Untouched result self.old self.new }
        ensures chip { self.new.chip ≡ fallen self.old.chip n }
    {
        let line = Line::shown(&mut self.chip, n);
        self.chip.fall(n)?;
        Ok(line.fall_answer())
    }

    fn open(&mut self, n: u16) -> Result<Answer, Refusal>
        ensures rule { Keeps Sound meant (λ m m'. Opens m n result m') self.old.chip self.new.chip }
        ensures refused { Untouched result self.old self.new }
        ensures chip { Sound self.old.chip → self.new.chip ≡ opened_chip self.old.chip n }
    {
        let level = level_of(n)?;
        steps::set_masked(&mut self.chip, level, false);
        Ok(Answer::Done)
    }

    fn shut(&mut self, n: u16) -> Result<Answer, Refusal>
        ensures rule { Keeps Sound meant (λ m m'. Shuts m n result m') self.old.chip self.new.chip }
        ensures refused { Untouched result self.old self.new }
        ensures chip { Sound self.old.chip → self.new.chip ≡ shut_chip self.old.chip n }
    {
        let level = level_of(n)?;
        if self.chip.shows(Register::Isr, n) {
            return Err(Refusal::InService);
        }
        steps::set_masked(&mut self.chip, level, true);
        Ok(Answer::Done)
    }

    fn take(&mut self) -> Option<u16>
        ensures rule { Keeps Sound meant (λ m m'. Takes m result m') self.old.chip self.new.chip }
        ensures chip { Sound self.old.chip → TakesLevel self.old.chip result self.new.chip }
    {
        steps::take(&mut self.chip)
    }

    fn finish(&mut self, n: u16) -> Result<Answer, Refusal>
        ensures rule { Keeps Sound meant (λ m m'. Finishes m n result m') self.old.chip self.new.chip }
        ensures refused { Untouched result self.old self.new }
        ensures chip { Sound self.old.chip → self.new.chip ≡ finished_chip self.old.chip n }
    {
        let level = level_of(n)?;
        if steps::newest(&mut self.chip) != Some(level) {
            return Err(Refusal::NotNewest);
        }
        let high = self.chip.shows(Register::Irr, n);
        steps::end(&mut self.chip, level);
        Ok(Answer::accepted_if(high))
    }
}
