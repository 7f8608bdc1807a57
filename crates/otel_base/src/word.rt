//! The fixed keys and words of records.
ghost use Rattle.std.specs.Prelude.{◌≡◌};
ghost use Rattle.otel_base.specs.Words.{word_text};

/// A key or word that records have from the program and not from the traced one; the texts that
/// `tracing_opentelemetry` has as `&'static str`.
#[derive(Clone, Copy, PartialEq, Eq)]
pub enum Word {
    /// The key of the time for which a span was entered, in nanoseconds: `busy_ns`.
    Busy,
    /// The key of the time for which it wasn't, in nanoseconds: `idle_ns`.
    Idle,
    /// The key of the number of events that were counted on a span: `otel.tracing_event_count`.
    EventCount,
    /// The key of a callsite's level: `level`.
    Level,
    /// The key of a callsite's target: `target`.
    Target,
    /// The key of a callsite's file: `code.file.path`.
    FilePath,
    /// The key of a callsite's module: `code.module.name`.
    ModuleName,
    /// The key of a callsite's line: `code.line.number`.
    LineNumber,
    /// The key of a thread's number: `thread.id`.
    ThreadId,
    /// The key of a thread's name: `thread.name`.
    ThreadName,
    /// The name of an event that tells an error: `exception`.
    Exception,
    /// The key of an error's message: `exception.message`.
    ExceptionMessage,
    /// The key of an error's chain of causes: `exception.stacktrace`.
    ExceptionStacktrace,
    /// The key of an error that is no exception: `error`.
    Error,
    /// The word of a level: `ERROR`.
    ErrorLevel,
    /// The word of a level: `WARN`.
    WarnLevel,
    /// The word of a level: `INFO`.
    InfoLevel,
    /// The word of a level: `DEBUG`.
    DebugLevel,
    /// The word of a level: `TRACE`.
    TraceLevel,
}

impl Word {
    /// The word itself.
    pub fn as_str(self) -> &'static str
        ensures { result.now ≡ word_text self }
    {
        match self {
            Word::Busy => "busy_ns",
            Word::Idle => "idle_ns",
            Word::EventCount => "otel.tracing_event_count",
            Word::Level => "level",
            Word::Target => "target",
            Word::FilePath => "code.file.path",
            Word::ModuleName => "code.module.name",
            Word::LineNumber => "code.line.number",
            Word::ThreadId => "thread.id",
            Word::ThreadName => "thread.name",
            Word::Exception => "exception",
            Word::ExceptionMessage => "exception.message",
            Word::ExceptionStacktrace => "exception.stacktrace",
            Word::Error => "error",
            Word::ErrorLevel => "ERROR",
            Word::WarnLevel => "WARN",
            Word::InfoLevel => "INFO",
            Word::DebugLevel => "DEBUG",
            Word::TraceLevel => "TRACE",
        }
    }
}
