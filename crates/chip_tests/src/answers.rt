// The answer of a call after which a line waits or not, and the words of all four.
use controller::Answer;
use std::test::Fail;

#[test]
fn a_line_that_waits_is_accepted(rt: HostRuntime) {
    assert_eq!(rt; Answer::accepted_if(true), Answer::Accepted);
    assert_eq!(rt; Answer::accepted_if(false), Answer::Noted);
}

const WORDS: [(Answer, &str); 4] = [
    (Answer::Accepted, "ACCEPTED"),
    (Answer::Withdrawn, "WITHDRAWN"),
    (Answer::Noted, "NOTED"),
    (Answer::Done, "DONE"),
];

#[test]
fn every_answer_is_a_word(rt: HostRuntime) -> Result<(), Fail> {
    for &(answer, word) in &WORDS {
        assert_eq!(rt; answer.text(), word);
        let printed = format!(in rt.alloc(); "{answer}")?;
        assert_eq!(rt; printed.as_str(), word);
    }
    Ok(())
}
