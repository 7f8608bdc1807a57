//! Explains what becomes of spans in stacks: reads scripts of calls on handles, one call a line, and prints behind each what
//! is answered, and behind the last of a script the records that its stack gave.
#![tactic(auto)]

mod handles;
mod play;
mod scene;
mod script;
mod stack;
mod told;
mod words;

use futures::test::MockTask;
use std::io::{self, ErrorKind};

fn main(rt: HostRuntime) -> io::Result<()> {
    let task = MockTask::new(&rt)?;
    let mut stack = String::new(rt.alloc());
    let mut lines = Vec::new(rt.alloc());
    for line in rt.lines(rt.alloc()) {
        let line = line?;
        match line.as_str().strip_prefix("stack ") {
            Some(words) => {
                tell(&rt, &task, stack.as_str(), lines.as_slice())?;
                print!(rt; "stack {words}\n")?;
                stack = String::from_str(rt.alloc(), words)?;
                lines = Vec::new(rt.alloc());
            }
            None => lines.push(line)?,
        }
    }
    tell(&rt, &task, stack.as_str(), lines.as_slice())
}

// Prints what a script over a stack comes to.
fn tell(rt: &HostRuntime, task: &MockTask, stack: &str, lines: &[String]) -> io::Result<()> {
    let told = task.enter(|cx| script::run(rt.alloc(), stack, lines, cx));
    let told = told.map_err(|_| ErrorKind::OutOfMemory)?;
    print!(rt; "{told}")?;
    Ok(())
}
