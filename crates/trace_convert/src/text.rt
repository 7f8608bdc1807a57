//! A waterfall for a terminal: a line a span, under its parent, with a bar over the time of its trace.
use crate::duration::duration;
use crate::record::{Event, Record, Status};
use crate::scale::Scale;
use crate::traces::{Row, Trace};
use convert_base::Fault;
use std::alloc::Global;
use unicode_width::{UnicodeWidthChar, UnicodeWidthStr};

// The columns of a duration, as `123.4ms`.
const DURATION_WIDTH: usize = 8;
// What is neither name, duration nor bar: the mark, and blanks between the parts.
const MARK_AND_BLANKS_WIDTH: usize = 4;

const EIGHTHS: [&str; 8] = [" ", "▏", "▎", "▍", "▌", "▋", "▊", "▉"];

// How many columns each part of a line takes.
#[derive(Clone, Copy)]
struct Columns {
    name: usize,
    bar: usize,
}

fn columns_of(width: usize) -> Columns {
    let name = width / 10 * 3;
    Columns {
        name,
        bar: width
            .saturating_sub(name)
            .saturating_sub(DURATION_WIDTH + MARK_AND_BLANKS_WIDTH),
    }
}

/// The lines of a trace, of so many columns at most: its id, and then its spans.
pub fn lines(alloc: Global, trace: &Trace, width: usize) -> Result<String, Fault> {
    let columns = columns_of(width);
    let (start, end) = trace.times();
    let scale = Scale {
        start,
        end,
        steps: (columns.bar as u64).saturating_mul(8),
    };
    let id = printable(alloc, trace.id.as_str())?;
    let lasts = duration(alloc, end.saturating_sub(start))?;
    let size = trace.size_text(alloc)?;
    let mut lines = format!(in alloc; "trace {id}, {size}, {lasts}\n")?;
    for row in trace.rows(alloc)? {
        if let Some(record) = trace.records.get(row.place) {
            lines.push_str(line(alloc, record, row, columns, scale)?.as_str())?;
        }
    }
    Ok(lines)
}

// The line of a span.
fn line(
    alloc: Global,
    record: &Record,
    row: Row,
    columns: Columns,
    scale: Scale,
) -> Result<String, Fault> {
    let mut line = String::new(alloc);
    line.push_str(mark_of(&record.status))?;
    line.push_str(name_column(alloc, record.name.as_str(), row.depth, columns.name)?.as_str())?;
    let lasts = duration(alloc, record.end.saturating_sub(record.start))?;
    push_blanks(
        &mut line,
        DURATION_WIDTH
            .saturating_sub(lasts.as_str().width())
            .saturating_add(1),
    )?;
    line.push_str(lasts.as_str())?;
    line.push_str(" ")?;
    line.push_str(bar_of(alloc, record, columns.bar, scale)?.as_str())?;
    let mut line = line.as_str().trim_end().to_string(alloc)?;
    line.push_str("\n")?;
    Ok(line)
}

fn mark_of(status: &Status) -> &'static str {
    match status {
        Status::Error(_) => "! ",
        Status::Unset | Status::Ok => "  ",
    }
}

// A name behind the blanks of its depth, cut or filled up to so many columns.
fn name_column(alloc: Global, name: &str, depth: usize, columns: usize) -> Result<String, Fault> {
    let mut text = String::new(alloc);
    let indent = depth.saturating_mul(2).min(columns / 2);
    push_blanks(&mut text, indent)?;
    let mut left = columns.saturating_sub(indent);
    let name = printable(alloc, name)?;
    let is_cut = name.as_str().width() > left;
    if is_cut {
        left = left.saturating_sub(1);
    }
    for character in name.as_str().chars() {
        let wide = character.width().unwrap_or(0);
        if wide > left {
            break;
        }
        left -= wide;
        text.push(character)?;
    }
    if is_cut {
        text.push_str("…")?;
    }
    push_blanks(&mut text, left)?;
    Ok(text)
}

// A text in which nothing moves the cursor or turns the reading's direction.
fn printable(alloc: Global, text: &str) -> Result<String, Fault> {
    let mut shown = String::new(alloc);
    for character in text.chars() {
        if is_plain(character) {
            shown.push(character)?;
        } else {
            shown.push('\u{fffd}')?;
        }
    }
    Ok(shown)
}

fn is_plain(character: char) -> bool {
    let is_turning =
        matches!(character, '\u{61c}' | '\u{200e}' | '\u{200f}' | '\u{202a}'..='\u{202e}' | '\u{2066}'..='\u{2069}');
    let is_break = matches!(character, '\u{2028}' | '\u{2029}');
    !character.is_control() && !is_turning && !is_break
}

fn push_blanks(text: &mut String, count: usize) -> Result<(), Fault> {
    for _ in 0..count {
        text.push_str(" ")?;
    }
    Ok(())
}

// The time of a span as a bar, its events as marks on it.
fn bar_of(alloc: Global, record: &Record, columns: usize, scale: Scale) -> Result<String, Fault> {
    // A span of no length at the end of its trace has the last eighth.
    let from = scale
        .step_at(record.start)
        .min(scale.steps.saturating_sub(1));
    let to = scale.step_at(record.end);
    let mut bar = String::new(alloc);
    for column in 0..columns as u64 {
        let left = column.saturating_mul(8);
        if has_event(record.events.as_slice(), column, scale) {
            bar.push_str("◆")?;
        } else {
            bar.push_str(cell(from, to, left))?;
        }
    }
    Ok(bar)
}

fn has_event(events: &[Event], column: u64, scale: Scale) -> bool {
    events
        .iter()
        .any(|event| scale.column(event.time) == column)
}

// A column of the bar of a span, which begins at an eighth and has the span from an eighth to another one.
fn cell(from: u64, to: u64, left: u64) -> &'static str {
    let right = left.saturating_add(8);
    if to < left || from >= right || (to == left && from < left) {
        " "
    } else if from <= left && to >= right {
        "█"
    } else if to < right {
        let eighths = to.saturating_sub(from.max(left)).clamp(1, 7);
        match EIGHTHS.get(eighths as usize) {
            Some(block) => *block,
            None => " ",
        }
    } else {
        match right.saturating_sub(from) {
            0..=2 => "▕",
            3..=5 => "▐",
            _ => "█",
        }
    }
}
