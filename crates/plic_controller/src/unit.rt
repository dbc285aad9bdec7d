// The controller: its making, and each call by the chip's registers and calls.
ghost use Rattle.std.specs.Prelude.{◌≡◌, true, false};
ghost use Rattle.controller.specs.Laws.{RuleLaws};
ghost use Rattle.controller.specs.Meaning.{Keeps};
ghost use Rattle.controller.specs.Rules.{Rises, Falls, Opens, Shuts, Takes, Finishes, Untouched};
ghost use Rattle.plic_controller.specs.Told.{meant, fixed_by};
ghost use Rattle.plic_controller.specs.Sound.{Sound};
ghost use Rattle.plic_controller.specs.Made.{Made, kept_of, at_rest};
ghost use Rattle.plic_controller.specs.Steps.{Lined};
ghost use Rattle.plic_controller.specs.After.{after, risen_at, fallen_at, enabled_at, taken_at, finished_at};
ghost use Rattle.plic_controller.specs.Lawful;

use crate::{registers, serving};
use controller::{Answer, Controller, Refusal};
use plic::{Gateway, Plic, Request};

// Source numbers lie below the width, and ranks, 64 to each of eight classes, below the span.
const WIDTH: u16 = 64;

const SPAN: u32 = 512;

#[derive(Drop)]
pub struct PlicController {
    chip: Plic<64>,
}

impl PlicController {
    // Of each priority the low three bits count; entry 0 is written too, and the chip ignores it. All lines are shut. Whoever makes a
    // controller learns what the rules of its calls come to.
    pub fn new(priorities: [u8; 64]) -> PlicController
        ensures sound { Sound result.chip }
        ensures fixed { (meant result.chip).fixed ≡ fixed_by (kept_of priorities) }
        ensures state { (meant result.chip).state ≡ at_rest }
        ensures chip { Made priorities result.chip }
        ensures laws { RuleLaws }
    {
        let mut chip = Plic::new();
        for (n, priority) in priorities.iter().enumerate() {
            registers::set_priority(&mut chip, n as u16, *priority);
        }
        PlicController { chip }
    }

    // The gateway of line n; a number that is no line is refused.
    fn line(&self, n: u16) -> Result<Gateway, Refusal>
        ensures { Lined self.now.chip n result }
    {
        let gateway = self.chip.gateway(n);
        if gateway.priority > 0 {
            Ok(gateway)
        } else {
            Err(Refusal::NotALine)
        }
    }
}

// A call's own clauses stand in place of the trait's: so each repeats the trait's two before the one of its chip.
impl Controller for PlicController {
    // Ten members, as the trait is to have them, each of the one value that is meant.
    ghost widths = { λ c. (meant c.chip).fixed.width };

    ghost spans = { λ c. (meant c.chip).fixed.span };

    ghost lines = { λ c. (meant c.chip).fixed.line };

    ghost classes = { λ c. (meant c.chip).fixed.class };

    ghost fleets = { λ c. (meant c.chip).fixed.fleeting };

    ghost ranks = { λ c. (meant c.chip).fixed.rank };

    ghost opened = { λ c. (meant c.chip).state.opened };

    ghost highs = { λ c. (meant c.chip).state.high };

    ghost waits = { λ c. (meant c.chip).state.waiting };

    ghost stack = { λ c. (meant c.chip).state.stack };

    ghost sound = { λ c. Sound c.chip };

    ghost lawful = { λ c sound. Lawful.lawful c.chip sound };

    fn width(&self) -> u16 {
        WIDTH
    }

    fn span(&self) -> u32 {
        SPAN
    }

    fn there(&self, n: u16) -> bool {
        self.line(n).is_ok()
    }

    fn fleeting(&self, _: u16) -> bool {
        false
    }

    fn newest(&mut self) -> Option<u16> {
        serving::newest(&self.chip)
    }

    fn signal(&self) -> bool {
        self.chip.signal()
    }

    fn rise(&mut self, n: u16) -> Result<Answer, Refusal>
        ensures rule { Keeps Sound meant (λ m m'. Rises m n result m') self.old.chip self.new.chip }
        ensures refused { Untouched result self.old self.new }
        ensures chip { Sound self.old.chip → self.new.chip ≡ after result self.old.chip (risen_at self.old.chip n) }
    {
        let gateway = self.line(n)?;
        self.chip.rise(n)?;
        Ok(Answer::accepted_if(gateway.request == Request::Idle))
    }

    fn fall(&mut self, n: u16) -> Result<Answer, Refusal>
        ensures rule { Keeps Sound meant (λ m m'. Falls m n result m') self.old.chip self.new.chip }
        ensures refused { Untouched result self.old self.new }
        ensures chip { Sound self.old.chip → self.new.chip ≡ after result self.old.chip (fallen_at self.old.chip n) }
    {
        self.line(n)?;
        self.chip.fall(n)?;
        Ok(Answer::Noted)
    }

    fn open(&mut self, n: u16) -> Result<Answer, Refusal>
        ensures rule { Keeps Sound meant (λ m m'. Opens m n result m') self.old.chip self.new.chip }
        ensures refused { Untouched result self.old self.new }
        ensures chip { Sound self.old.chip → self.new.chip ≡ after result self.old.chip (enabled_at self.old.chip n true) }
    {
        self.line(n)?;
        registers::set_enabled(&mut self.chip, n, true);
        Ok(Answer::Done)
    }

    fn shut(&mut self, n: u16) -> Result<Answer, Refusal>
        ensures rule { Keeps Sound meant (λ m m'. Shuts m n result m') self.old.chip self.new.chip }
        ensures refused { Untouched result self.old self.new }
        ensures chip { Sound self.old.chip → self.new.chip ≡ after result self.old.chip (enabled_at self.old.chip n false) }
    {
        let gateway = self.line(n)?;
        if gateway.request == Request::Claimed {
            return Err(Refusal::InService);
        }
        registers::set_enabled(&mut self.chip, n, false);
        Ok(Answer::Done)
    }

    // Claims only while the PLIC signals, and then sets the threshold to the claimed line's priority.
    fn take(&mut self) -> Option<u16>
        ensures rule { Keeps Sound meant (λ m m'. Takes m result m') self.old.chip self.new.chip }
        ensures chip { Sound self.old.chip → self.new.chip ≡ taken_at self.old.chip result }
    {
        let n = serving::claim_signalled(&mut self.chip)?;
        serving::follow(&mut self.chip, Some(n));
        Some(n)
    }

    // Completes the line, and lowers the threshold to the priority of the newest line left.
    fn finish(&mut self, n: u16) -> Result<Answer, Refusal>
        ensures rule { Keeps Sound meant (λ m m'. Finishes m n result m') self.old.chip self.new.chip }
        ensures refused { Untouched result self.old self.new }
        ensures chip { Sound self.old.chip → self.new.chip ≡ after result self.old.chip (finished_at self.old.chip n) }
    {
        let gateway = self.line(n)?;
        if serving::newest(&self.chip) != Some(n) {
            return Err(Refusal::NotNewest);
        }
        registers::complete(&mut self.chip, n);
        let newest = serving::newest(&self.chip);
        serving::follow(&mut self.chip, newest);
        Ok(Answer::accepted_if(gateway.high))
    }
}
