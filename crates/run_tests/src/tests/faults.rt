//! Reads and writes that fail, one after another, and inputs that are too long.
use crate::tests::{
    ANSWERS, FIRST_REQUESTS, SETTINGS, front_and_status, run_command, run_script, script,
};
use std::random::RandomSource;
use std::sync::Wait;
use std::test::Fail;
use std::thread::Threads;
use trace_lines::limits::MAX_INPUT;
use trace_stream::status::Status;
use trace_stream::turns::Turn;

// The line of a span that threads share, and that of a worker.
const THREAD_LINES: &str = "{\"at\":0,\"shared\":0}\n{\"worker\":[]}\n";

// How many bytes the first lines have.
fn size_of_lines(text: &str, lines: usize) -> usize {
    let mut size = 0usize;
    for line in text.lines().take(lines) {
        size = size.saturating_add(line.len()).saturating_add(1);
    }
    size
}

// Whether the first span's script over these turns writes so many bytes of its answers, and ends so.
fn ends_as<H: Threads + Wait + Sync + RandomSource + AllocGlobal>(
    rt: &H,
    reads: &[Turn],
    writes: &[Turn],
    size: usize,
    status: Status,
) -> Result<bool, Fail> {
    let input = script(rt, FIRST_REQUESTS)?;
    let got = run_script(rt, input.as_bytes(), reads, writes)?;
    let wanted = front_and_status(rt, ANSWERS, size, status)?;
    Ok(got.as_str() == wanted.as_str())
}

// How many bytes the whole lines are answered that end within the first bytes of the script. The settings line is answered
// nothing, and the last line a record too.
fn answered_size(input: &[u8], size: usize) -> usize {
    let mut lines = 0usize;
    for byte in input.iter().take(size) {
        if *byte == b'\n' {
            lines = lines.saturating_add(1);
        }
    }
    let told = if lines < 5 {
        lines.saturating_sub(1)
    } else {
        5
    };
    size_of_lines(ANSWERS, told)
}

// The first read of the script, byte by byte, that isn't answered by the lines of the whole lines before it where it fails.
// The last is the one that would meet the end.
fn wrong_read<H: Threads + Wait + Sync + RandomSource + AllocGlobal>(
    rt: &H,
) -> Result<Option<usize>, Fail> {
    let input = script(rt, FIRST_REQUESTS)?;
    let reads = input.len().saturating_add(1);
    let mut turns = vec![in rt.alloc(); Turn::Moves { most: 1 }; reads]?;
    for at in 0..reads {
        turns[at] = Turn::Fails;
        let size = answered_size(input.as_bytes(), at);
        if !ends_as(rt, turns.as_slice(), &[], size, Status::ReadFault)? {
            return Ok(Some(at));
        }
        turns[at] = Turn::Moves { most: 1 };
    }
    Ok(None)
}

// The first write, byte by byte, that isn't told with the bytes before it where it fails.
fn wrong_write<H: Threads + Wait + Sync + RandomSource + AllocGlobal>(
    rt: &H,
) -> Result<Option<usize>, Fail> {
    let mut turns = vec![in rt.alloc(); Turn::Moves { most: 1 }; ANSWERS.len()]?;
    for at in 0..ANSWERS.len() {
        turns[at] = Turn::Fails;
        if !ends_as(rt, &[], turns.as_slice(), at, Status::WriteFault)? {
            return Ok(Some(at));
        }
        turns[at] = Turn::Moves { most: 1 };
    }
    Ok(None)
}

#[test]
fn tells_each_fault(rt: HostRuntime) -> Result<(), Fail> {
    assert!(rt; wrong_read(&rt)?.is_none());
    assert!(rt; wrong_write(&rt)?.is_none());
    Ok(())
}

#[test]
fn breaks_off(rt: HostRuntime) -> Result<(), Fail> {
    let settings = SETTINGS.len() + 1;
    let most = settings.saturating_add(size_of_lines(FIRST_REQUESTS, 2));
    let whole = [Turn::Moves { most }, Turn::Fails];
    let most = settings + 20;
    let cut = [Turn::Moves { most }, Turn::Fails];
    let ten = Turn::Moves { most: 10 };
    let full = [ten, ten, ten, Turn::Moves { most: 0 }];
    let answers = size_of_lines(ANSWERS, 2);
    assert!(rt; ends_as(&rt, &whole, &[], answers, Status::ReadFault)?);
    assert!(rt; ends_as(&rt, &cut, &[], 0, Status::ReadFault)?);
    assert!(rt; ends_as(&rt, &[], &full, 30, Status::WriteFault)?);
    Ok(())
}

// What the command of a word writes of a script behind whose second line the reading fails.
fn broken_run<H: Threads + Wait + Sync + RandomSource + AllocGlobal>(
    rt: &H,
    word: &str,
    rest: &str,
) -> Result<String, Fail> {
    let input = script(rt, rest)?;
    let most = size_of_lines(input.as_str(), 2);
    let reads = [Turn::Moves { most }, Turn::Fails];
    run_command(rt, word, input.as_bytes(), &reads, &[])
}

// A command that reads all lines before it writes leaves nothing of an input that breaks off, but for a refused line.
#[test]
fn writes_nothing_of_a_broken_input(rt: HostRuntime) -> Result<(), Fail> {
    let refused = "{\"line\":2,\"refused\":\"BadLine\"}\n= 2\n";
    for (word, rest) in [("tree", FIRST_REQUESTS), ("threads", THREAD_LINES)] {
        assert_eq!(rt; broken_run(&rt, word, rest)?.as_str(), "= 3\n");
        assert_eq!(rt; broken_run(&rt, word, "7\n8\n")?.as_str(), refused);
    }
    Ok(())
}

// Whether a text that is filled up with blanks to so many bytes is answered so by the command of a word.
fn answers_filled_input<H: Threads + Wait + Sync + RandomSource + AllocGlobal>(
    rt: &H,
    word: &str,
    text: &str,
    size: usize,
    wanted: &str,
) -> Result<bool, Fail> {
    let mut input = Vec::new(rt.alloc());
    input.extend_from_slice(text.as_bytes())?;
    input.resize(size, b' ')?;
    Ok(run_command(rt, word, input.as_slice(), &[], &[])?.as_str() == wanted)
}

#[test]
fn tells_a_long_input(rt: HostRuntime) -> Result<(), Fail> {
    let refused = "{\"line\":1,\"refused\":\"BadLine\"}\n= 2\n";
    assert!(rt; answers_filled_input(&rt, "run", "7\n", MAX_INPUT + 2, refused)?);
    let longest = "{\"done\":true,\"open\":0,\"records\":0}\n= 0\n";
    assert!(rt; answers_filled_input(&rt, "run", SETTINGS, MAX_INPUT, longest)?);
    let made = script(&rt, "{\"at\":0,\"do\":\"new\",\"lane\":0,\"site\":0}\n")?;
    let over = "{\"enabled\":true,\"handle\":0,\"reply\":2}\n= 6\n";
    assert!(rt; answers_filled_input(&rt, "run", made.as_str(), MAX_INPUT + 1, over)?);
    let shared = script(&rt, THREAD_LINES)?;
    assert!(rt; answers_filled_input(&rt, "threads", shared.as_str(), MAX_INPUT + 1, "= 6\n")?);
    Ok(())
}

// A lane has room for 65,534 contexts; the entry behind them is refused.
#[test]
fn tells_a_full_lane(rt: HostRuntime) -> Result<(), Fail> {
    let mut input = script(&rt, "{\"at\":0,\"do\":\"new\",\"lane\":0,\"site\":0}\n")?;
    for _ in 0..65_535 {
        input.push_str("{\"at\":0,\"do\":\"enter\",\"handle\":0,\"lane\":0}\n")?;
    }
    let got = run_script(&rt, input.as_bytes(), &[], &[])?;
    let last =
        "{\"guard\":65533,\"reply\":65536}\n{\"lane\":0,\"line\":65537,\"refused\":\"Full\"}\n= 2\n";
    assert!(rt; got.as_str().ends_with(last));
    Ok(())
}
