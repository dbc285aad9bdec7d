// What is printed: a title for each topic, and under it a line for each case.
use std::io;

pub(crate) trait Case {
    // Runs the case, and prints what came back.
    fn tell(&self, rt: &HostRuntime) -> io::Result<()>;
}

pub(crate) fn topic<C: Case>(rt: &HostRuntime, title: &str, cases: &[C]) -> io::Result<()> {
    println!(rt; "{title}")?;
    for case in cases {
        case.tell(rt)?;
    }
    Ok(())
}
