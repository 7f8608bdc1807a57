//! Tables of scripts, and whether each goes as is written there: `#` leads its title, `P` stands for the settings line, `<` leads
//! an input line, and `>` an output line.
use crate::tests::steps::{STEP_SCRIPTS, step_texts};
use crate::tests::whole_runs::{WHOLE_RUNS, whole_run_text};
use crate::tests::{SETTINGS, add_line};
use std::process::Abort;
use std::test::Fail;

// A script of a table, as far as it is read.
#[derive(Drop)]
struct Row {
    // Its input.
    input: String,
    // What it is to write.
    wanted: String,
}

impl Row {
    fn new<R: AllocGlobal>(rt: &R) -> Row {
        Row {
            input: String::new(rt.alloc()),
            wanted: String::new(rt.alloc()),
        }
    }

    fn clear(&mut self) {
        self.input.clear();
        self.wanted.clear();
    }

    // Takes a line of the table, which leads an input line or an output line, or tells nothing of the script.
    fn take(&mut self, line: &str) -> Result<(), Fail> {
        if line == "P" {
            return add_line(&mut self.input, SETTINGS);
        }
        if let Some(text) = line.strip_prefix("< ") {
            return add_line(&mut self.input, text);
        }
        match line.strip_prefix("> ") {
            Some(text) => add_line(&mut self.wanted, text),
            None => Ok(()),
        }
    }
}

// What is written for a script that a line ends. None where the line ends none.
fn output_with_line<R: AllocGlobal>(
    rt: &R,
    script: &str,
    line: &str,
) -> Result<Option<String>, Fail> {
    match line {
        "~" => Ok(Some(step_texts(rt, script)?)),
        "^" => Ok(Some(whole_run_text(rt, script)?)),
        _ => Ok(None),
    }
}

// The first of some scripts that goes otherwise than is written there.
fn first_difference<R: AllocGlobal>(rt: &R, scripts: &str) -> Result<Option<String>, Fail> {
    let mut row = Row::new(rt);
    for line in scripts.lines() {
        match output_with_line(rt, row.input.as_str(), line)? {
            Some(got) if got.as_str() != row.wanted.as_str() => return Ok(Some(got)),
            Some(_) => row.clear(),
            None => row.take(line)?,
        }
    }
    Ok(None)
}

#[test]
fn steps_behind_refused_requests(rt: HostRuntime) -> Result<(), Fail> {
    let difference = first_difference(&rt, STEP_SCRIPTS)?;
    assert!(rt; difference.is_none(), "{difference:?}");
    Ok(())
}

#[test]
fn runs_scripts_at_once(rt: HostRuntime) -> Result<(), Fail> {
    let difference = first_difference(&rt, WHOLE_RUNS)?;
    assert!(rt; difference.is_none(), "{difference:?}");
    Ok(())
}
