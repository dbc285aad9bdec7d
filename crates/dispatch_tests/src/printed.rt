// An END as it is printed.
use controller::Answer::Noted;
use dispatch::Ended;
use std::test::Fail;

#[test]
fn an_end_is_printed(rt: HostRuntime) -> Result<(), Fail> {
    let ended = Ended {
        line: 9,
        depth: 2,
        answer: Noted,
    };
    assert_eq!(rt;
        format!(in rt.alloc(); "{ended}")?.as_str(),
        "END 9, depth 2, NOTED"
    );
    Ok(())
}
