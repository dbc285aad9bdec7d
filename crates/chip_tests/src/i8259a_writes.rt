// Every byte to every port at every step of the set-up, against one table of rules.
use crate::commands::{ICW1, ICW2, ICW3, ICW4, READ_ISR};
use SetUpStep::{Icw1, Icw2, Icw3, Icw4, Nothing};
use controller::Refusal;
use controller::Refusal::{NoSuchAddress, NotModelled, NotSetUp};
use i8259a::I8259a;
use std::process::Abort;
use std::test::Fail;

// What the set-up waits for.
#[derive(Clone, Copy, PartialEq, Eq, Debug)]
enum SetUpStep {
    Icw1,
    Icw2,
    Icw3,
    Icw4,
    Nothing,
}

const STEPS: [SetUpStep; 5] = [Icw1, Icw2, Icw3, Icw4, Nothing];

const PORTS: [u8; 4] = [0, 1, 2, 255];

// A step, or none for every step; a port; a pattern of the byte's bits 7 to 0, x for either; and the answer.
struct Rule(Option<SetUpStep>, u8, &'static [u8; 8], Result<(), Refusal>);

const RULES: [Rule; 20] = [
    Rule(None, 2, b"xxxxxxxx", Err(NoSuchAddress)),
    Rule(None, 255, b"xxxxxxxx", Err(NoSuchAddress)),
    // ICW1
    Rule(None, 0, b"xxx11x01", Ok(())),
    Rule(None, 0, b"xxx1xxxx", Err(NotModelled)),
    // before the set-up is complete
    Rule(Some(Icw1), 0, b"xxxxxxxx", Err(NotSetUp)),
    Rule(Some(Icw2), 0, b"xxxxxxxx", Err(NotSetUp)),
    Rule(Some(Icw3), 0, b"xxxxxxxx", Err(NotSetUp)),
    Rule(Some(Icw4), 0, b"xxxxxxxx", Err(NotSetUp)),
    Rule(Some(Icw1), 1, b"xxxxxxxx", Err(NotSetUp)),
    Rule(Some(Icw2), 1, b"xxxxxxxx", Ok(())),
    Rule(Some(Icw3), 1, b"xxxxxxxx", Ok(())),
    Rule(Some(Icw4), 1, b"00000001", Ok(())),
    Rule(Some(Icw4), 1, b"xxxxxxxx", Err(NotModelled)),
    // the mask
    Rule(Some(Nothing), 1, b"xxxxxxxx", Ok(())),
    // OCW2
    Rule(Some(Nothing), 0, b"00100xxx", Ok(())),
    Rule(Some(Nothing), 0, b"01000xxx", Ok(())),
    Rule(Some(Nothing), 0, b"01100xxx", Ok(())),
    Rule(Some(Nothing), 0, b"xxx00xxx", Err(NotModelled)),
    // OCW3
    Rule(Some(Nothing), 0, b"00x010xx", Ok(())),
    Rule(Some(Nothing), 0, b"xxx01xxx", Err(NotModelled)),
];

// Whether a byte has the bits of a pattern, from bit 7 down.
fn matches(pattern: &[u8; 8], byte: u8) -> bool {
    pattern.iter().zip((0..8u8).rev()).all(|(mark, place)| match mark {
        b'0' => (byte >> place) & 1 == 0,
        b'1' => (byte >> place) & 1 == 1,
        _ => true,
    })
}

// A byte that is written to a port while the set-up waits at a step.
#[derive(Clone, Copy, Debug)]
struct Write {
    step: SetUpStep,
    port: u8,
    byte: u8,
}

impl Rule {
    fn fits(&self, write: Write) -> bool {
        let Rule(when, at, pattern, _) = self;
        when.is_none_or(|only| only == write.step)
            && *at == write.port
            && matches(pattern, write.byte)
    }
}

// The first rule that fits counts.
fn rule_for(rt: &impl Abort, write: Write) -> &'static Rule {
    RULES
        .iter()
        .find(|rule| rule.fits(write))
        .expect(rt, "the rules are for every write")
}

// The set-up's writes, port and byte.
const SET_UP: [(u8, u8); 4] = [(0, ICW1), (1, ICW2), (1, ICW3), (1, ICW4)];

// A chip that waits at a step, with two lines high.
fn waiting(step: SetUpStep) -> Result<I8259a, Fail> {
    let mut chip = I8259a::new();
    chip.rise(2)?;
    chip.rise(5)?;
    for &(port, byte) in SET_UP.iter().take(step as usize) {
        chip.write(port, byte)?;
    }
    Ok(chip)
}

// The same, and once it is set up it has a level in service, a mask and the in-service register selected.
fn busy(step: SetUpStep) -> Result<I8259a, Fail> {
    let mut chip = waiting(step)?;
    if step == Nothing {
        chip.acknowledge()?;
        chip.write(1, 0xa0)?;
        chip.write(0, READ_ISR)?;
    }
    Ok(chip)
}

// The answer is the table's, and a refused write changes nothing.
fn check_write(rt: &impl Abort, before: I8259a, write: Write) {
    let Rule(.., expected) = rule_for(rt, write);
    let mut chip = before;
    let answer = chip.write(write.port, write.byte);
    let after = if expected.is_ok() { chip } else { before };
    assert_eq!(rt; (answer, chip), (*expected, after), "{write:?}");
}

fn check_port(rt: &impl Abort, step: SetUpStep, port: u8) -> Result<(), Fail> {
    let chip = busy(step)?;
    for byte in 0..=u8::MAX {
        check_write(rt, chip, Write { step, port, byte });
    }
    Ok(())
}

fn check_step(rt: &impl Abort, step: SetUpStep) -> Result<(), Fail> {
    for port in PORTS {
        check_port(rt, step, port)?;
    }
    Ok(())
}

#[test]
fn every_write_is_answered_by_the_rules(rt: HostRuntime) -> Result<(), Fail> {
    for step in STEPS {
        check_step(&rt, step)?;
    }
    Ok(())
}
