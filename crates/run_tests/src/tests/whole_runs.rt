//! Scripts that are run at once, by `Pipeline::run`.
use otel_base::list::Items;
use span_script::open_error::OpenError;
use span_script::outcome::Outcome;
use std::test::Fail;
use trace_lines::{
    Refusal, Request, Told, end_line, read_request, read_settings, record_line, refusal_line,
    reply_line,
};
use trace_pipeline::Pipeline;

/// Scripts, each ended by `^`. Replies come first, then records, and then the refusal of the first refused request or,
/// where none is, the end line.
pub const WHOLE_RUNS: &str = r#"
# no request
P
> {"done":true,"open":0,"records":0}
^
# a child that outlives its parent's handle: two records, the child's first, and a span that stays open
P
< {"at":0,"do":"new","lane":0,"site":0}
< {"at":1,"do":"new","lane":0,"parent":0,"site":0}
< {"at":2,"do":"drop","handle":0,"lane":0}
< {"at":3,"do":"drop","handle":1,"lane":1}
< {"at":4,"do":"new","lane":0,"parent":"root","site":0}
> {"enabled":true,"handle":0,"reply":2}
> {"enabled":true,"handle":1,"reply":3}
> {"reply":4}
> {"reply":5}
> {"enabled":true,"handle":2,"reply":6}
> {"attributes":[["busy_ns",0],["idle_ns",0]],"end":3,"events":[],"kind":"internal","links":[],"name":"s","parent":"0000000000000001","record":1,"span":"0000000000000002","start":1,"status":"unset","trace":"00000000000000000000000000000001"}
> {"attributes":[["busy_ns",0],["idle_ns",0]],"end":3,"events":[],"kind":"internal","links":[],"name":"s","parent":"0000000000000000","record":2,"span":"0000000000000001","start":0,"status":"unset","trace":"00000000000000000000000000000001"}
> {"done":true,"open":1,"records":2}
^
# a request that is refused, with two behind it that are not run
P
< {"at":0,"do":"new","lane":0,"site":0}
< {"at":2,"do":"enter","handle":0,"lane":0}
< {"at":3,"do":"drop","handle":0,"lane":0}
< {"at":4,"do":"exit","guard":0,"lane":0}
< {"at":5,"do":"drop","handle":0,"lane":0}
> {"enabled":true,"handle":0,"reply":2}
> {"guard":0,"reply":3}
> {"line":4,"refused":"InUse"}
^
# a text for counting with a piece that is no directive
< {"callsites":[],"counting":"info,,x=loud","filter":"info","lanes":[]}
> {"line":1,"piece":3,"refused":"Directive","text":"counting"}
^
"#;

// Adds what a run answers: its replies, and then its records.
fn add_answers<R: AllocGlobal>(rt: &R, text: &mut String, outcome: &Outcome) -> Result<(), Fail> {
    let mut line = 1u64;
    for reply in outcome.replies.as_slice() {
        line = line.saturating_add(1);
        text.push_str(reply_line(rt.alloc(), line, reply)?.as_str())?;
    }
    let mut number = 0u64;
    for record in outcome.records.as_slice() {
        number = number.saturating_add(1);
        text.push_str(record_line(rt.alloc(), number, record)?.as_str())?;
    }
    Ok(())
}

// The last line of a run: the refusal of a request that names its place, or the end.
fn last_line<R: AllocGlobal>(rt: &R, outcome: &Outcome) -> Result<String, Fail> {
    match outcome.refused {
        Some((_, Refusal::Memory)) => Err(Fail::from("want of memory")),
        Some((place, refusal)) => {
            let told = Told::Step { refusal };
            Ok(refusal_line(rt.alloc(), place.saturating_add(2), &told)?)
        }
        None => {
            let records = outcome.records.as_slice().len() as u64;
            Ok(end_line(rt.alloc(), outcome.left_open, records)?)
        }
    }
}

// All lines of a run.
fn outcome_text<R: AllocGlobal>(rt: &R, outcome: &Outcome) -> Result<String, Fail> {
    let mut text = String::new(rt.alloc());
    add_answers(rt, &mut text, outcome)?;
    text.push_str(last_line(rt, outcome)?.as_str())?;
    Ok(text)
}

// The requests of some lines.
fn requests<R: AllocGlobal>(rt: &R, lines: &str) -> Result<Items<Request>, Fail> {
    let mut requests = Items::new(rt.alloc());
    for line in lines.lines() {
        requests.push(read_request(rt.alloc(), line.as_bytes())?)?;
    }
    Ok(requests)
}

// What is told of a run.
fn outcome_or_error_text<R: AllocGlobal>(
    rt: &R,
    ran: Result<Outcome, OpenError>,
) -> Result<String, Fail> {
    match ran {
        Ok(outcome) => outcome_text(rt, &outcome),
        Err(OpenError::Directive { counting, piece }) => {
            let told = Told::Directive { counting, piece };
            Ok(refusal_line(rt.alloc(), 1, &told)?)
        }
        Err(OpenError::Memory) => Err(Fail::from("no memory")),
    }
}

/// What is told of a script that is run at once.
pub fn whole_run_text<R: AllocGlobal>(rt: &R, script: &str) -> Result<String, Fail> {
    let (settings, lines) = script.split_once('\n').ok_or("a settings line")?;
    let requests = requests(rt, lines)?;
    let settings = read_settings(rt.alloc(), settings.as_bytes())?;
    outcome_or_error_text(rt, Pipeline::run(rt.alloc(), settings, requests))
}
