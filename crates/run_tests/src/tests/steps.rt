//! Scripts whose refused requests don't end them, so that what a refused step leaves shows in the steps behind it.
use std::test::Fail;
use trace_base::discard::Discard;
use trace_lines::Signal;
use trace_pipeline::Pipeline;
use trace_stream::answers::{RunStage, answer, open};
use trace_stream::written::Written;

/// Scripts, each ended by `~`. The request `?` asks how many spans are open.
pub const STEP_SCRIPTS: &str = r#"
# a child on the other lane, which holds its parent, and a guard, which holds its handle
P
< {"at":0,"do":"new","lane":0,"parent":"root","site":0}
< {"at":1,"do":"new","lane":1,"parent":0,"site":0}
< {"at":2,"do":"enter","handle":1,"lane":1}
< {"at":3,"do":"new","lane":1,"site":4}
< {"at":4,"do":"drop","handle":0,"lane":0}
< {"at":5,"do":"drop","handle":1,"lane":1}
< {"at":6,"do":"exit","guard":0,"lane":0}
< {"at":4,"do":"exit","guard":0,"lane":1}
< {"at":8,"do":"clone","handle":1,"lane":0}
< {"at":9,"do":"drop","handle":1,"lane":1}
< ?
< {"at":10,"do":"drop","handle":3,"lane":0}
< ?
< {"at":11,"do":"enter","handle":1,"lane":0}
< {"at":9,"do":"clone","handle":2,"lane":0}
< {"at":10,"do":"drop","handle":2,"lane":1}
> {"enabled":true,"handle":0,"reply":2}
> {"enabled":true,"handle":1,"reply":3}
> {"guard":0,"reply":4}
> {"enabled":false,"handle":2,"reply":5}
> {"reply":6}
> {"line":7,"refused":"InUse"}
> {"lane":1,"line":8,"refused":"WrongLane"}
> {"reply":9}
> {"enabled":true,"handle":3,"reply":10}
> {"reply":11}
> 2
> {"reply":13}
> {"attributes":[["busy_ns",2],["idle_ns",1]],"end":4,"events":[],"kind":"internal","links":[],"name":"s","parent":"0000000000000001","record":1,"span":"0000000000000002","start":1,"status":"unset","trace":"00000000000000000000000000000001"}
> {"attributes":[["busy_ns",0],["idle_ns",0]],"end":10,"events":[],"kind":"internal","links":[],"name":"s","parent":"0000000000000000","record":2,"span":"0000000000000001","start":0,"status":"unset","trace":"00000000000000000000000000000001"}
> 0
> {"line":15,"refused":"UnknownName","what":"handle"}
> {"before":10,"given":9,"line":16,"refused":"BadMoment"}
> {"reply":17}
~
# handles of the current span, of each lane its own, and what they are exchanged for
P
< {"at":0,"do":"current","lane":0}
< {"at":1,"do":"new","lane":0,"parent":"root","site":0}
< {"at":2,"do":"enter","handle":1,"lane":0}
< {"at":3,"do":"current","lane":0}
< {"at":4,"do":"current","lane":1}
< {"at":5,"do":"or_current","handle":1,"lane":0}
< {"at":5,"do":"or_current","handle":3,"lane":0}
< {"at":6,"do":"or_current","handle":2,"lane":1}
< {"at":7,"do":"or_current","handle":0,"lane":1}
< {"at":8,"do":"or_current","handle":3,"lane":0}
< {"at":8,"do":"exit","guard":0,"lane":0}
< {"at":9,"do":"or_current","handle":6,"lane":0}
> {"enabled":false,"handle":0,"reply":2}
> {"enabled":true,"handle":1,"reply":3}
> {"guard":0,"reply":4}
> {"enabled":true,"handle":2,"reply":5}
> {"enabled":false,"handle":3,"reply":6}
> {"line":7,"refused":"InUse"}
> {"enabled":true,"handle":4,"reply":8}
> {"enabled":true,"handle":5,"reply":9}
> {"enabled":false,"handle":6,"reply":10}
> {"line":11,"refused":"UnknownName","what":"handle"}
> {"reply":12}
> {"enabled":false,"handle":7,"reply":13}
~
# a guard that owns its handle, which is made where no other is open, and is spent last
P
< {"at":0,"do":"new","lane":0,"site":0}
< {"at":1,"do":"enter","handle":0,"lane":0}
< {"at":2,"do":"entered","handle":0,"lane":0}
< {"at":2,"do":"exit","guard":0,"lane":0}
< {"at":3,"do":"entered","handle":0,"lane":1}
< {"at":4,"do":"entered","handle":0,"lane":0}
< {"at":4,"do":"enter","handle":0,"lane":0}
< {"at":5,"do":"exit","guard":1,"lane":0}
< {"at":5,"do":"exit","guard":2,"lane":0}
< {"at":6,"do":"exit","guard":1,"lane":1}
< {"at":7,"do":"drop","handle":0,"lane":1}
> {"enabled":true,"handle":0,"reply":2}
> {"guard":0,"reply":3}
> {"line":4,"refused":"InUse"}
> {"reply":5}
> {"guard":1,"reply":6}
> {"line":7,"refused":"InUse"}
> {"guard":2,"reply":8}
> {"line":9,"refused":"InUse"}
> {"reply":10}
> {"reply":11}
> {"reply":12}
> {"attributes":[["busy_ns",4],["idle_ns",2]],"end":6,"events":[],"kind":"internal","links":[],"name":"s","parent":"0000000000000000","record":1,"span":"0000000000000001","start":0,"status":"unset","trace":"00000000000000000000000000000001"}
~
"#;

// Writes how many spans are open.
fn add_open_count<R: AllocGlobal>(
    rt: &R,
    pipeline: &Pipeline,
    written: &mut Written,
) -> Result<(), Fail> {
    let open = format!(in rt.alloc(); "{}\n", pipeline.open_spans())?;
    written.text.extend_from_slice(open.as_bytes())?;
    Ok(())
}

// Answers each line of a script by a step.
fn step_all<R: AllocGlobal>(
    rt: &R,
    pipeline: &mut Pipeline,
    written: &mut Written,
    requests: &str,
) -> Result<(), Fail> {
    let mut number = 1u64;
    for line in requests.lines() {
        number = number.saturating_add(1);
        if line == "?" {
            add_open_count(rt, pipeline, written)?;
        } else {
            let line = line.as_bytes();
            answer(rt.alloc(), Signal::Traces, pipeline, written, number, line)?;
        }
    }
    Ok(())
}

/// What is written for the settings line of a script and for each step behind it.
pub fn step_texts<R: AllocGlobal>(rt: &R, script: &str) -> Result<String, Fail> {
    let (settings, requests) = script.split_once('\n').ok_or("a settings line")?;
    let mut written = Written::new(rt.alloc());
    match open(
        rt.alloc(),
        Signal::Traces,
        &mut written,
        1,
        settings.as_bytes(),
    )? {
        RunStage::Running { mut pipeline } => {
            let stepped = step_all(rt, &mut pipeline, &mut written, requests);
            pipeline.discard();
            stepped?;
            Ok(String::from_utf8(written.text.into_vec())?)
        }
        RunStage::Opening | RunStage::Refused => Err(Fail::from("no pipeline")),
    }
}
