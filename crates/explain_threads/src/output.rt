//! The lines of an output.
ghost use Rattle.std.specs.Prelude.{◌≤◌, length};

use input_lines::first_line;

/// How the first line of an output begins: with a history, or with the end line or the refusal line where there is none.
const BEGINNINGS: [&[u8]; 3] = [b"{\"history\":", b"{\"done\":", b"{\"line\":"];

/// How many bytes stand before the output.
pub fn output_start(bytes: &[u8]) -> usize
    ensures { result ≤ length bytes.now }
{
    let mut rest = bytes;
    while !rest.is_empty() {
        if begins_output(rest) {
            return bytes.len() - rest.len();
        }
        let (_, after) = first_line(rest);
        rest = after;
    }
    bytes.len()
}

// Whether a line of an output begins here.
fn begins_output(rest: &[u8]) -> bool {
    for beginning in BEGINNINGS {
        if rest.starts_with(beginning) {
            return true;
        }
    }
    false
}

/// Whether a line tells a history.
pub fn is_history(line: &[u8]) -> bool {
    line.starts_with(BEGINNINGS[0])
}
