//! The program's words.
ghost use Rattle.std.specs.Prelude.{◌≡◌, ◌≤◌, IfSome};
ghost use Rattle.convert_base.specs.Numbers.{format_of};

/// What the records are converted to.
#[derive(Clone, Copy, Debug, PartialEq, Eq)]
pub enum Format {
    /// The OTLP JSON that the OpenTelemetry Collector's file receiver reads.
    Otlp,
    /// The trace event format of Perfetto and `chrome://tracing`.
    Chrome,
    /// A waterfall for a terminal.
    Text,
    /// A page with a waterfall of each trace.
    Html,
}

impl Format {
    /// The format that a word names.
    pub fn of(word: &str) -> Option<Format>
        ensures { result ≡ format_of word.now }
    {
        match word {
            "otlp" => Some(Format::Otlp),
            "chrome" => Some(Format::Chrome),
            "text" => Some(Format::Text),
            "html" => Some(Format::Html),
            _ => None,
        }
    }
}

/// The fewest columns of a line of text.
pub const MIN_WIDTH: usize = 40;
/// The most columns of a line of text.
pub const MAX_WIDTH: usize = 1_000;

/// The columns that a word asks for, if it is a decimal from `MIN_WIDTH` to `MAX_WIDTH`.
pub fn width_of(word: &str) -> Option<usize>
    ensures { IfSome result (λ width. (40 ≤ width) × (width ≤ 1000)) }
{
    let width = word.parse::<usize>().ok()?;
    if width < MIN_WIDTH || width > MAX_WIDTH {
        return None;
    }
    Some(width)
}
