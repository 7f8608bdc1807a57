//! Contexts: the ids by which a span is known outside, and what a lane carries on to new spans.
ghost use Rattle.std.specs.Prelude.{◌≡◌, None};
ghost use Rattle.otel_base.specs.Ids.{ids_of, is_valid as valid_ids, parent_id as id_of_parent};

/// The ids of a span, by which other spans and exporters name it; `opentelemetry::trace::SpanContext`,
/// without flags and trace state. An id of 0 is no id.
#[derive(Clone, Copy, PartialEq, Eq)]
pub struct SpanContext {
    /// The id of its trace; `opentelemetry::trace::TraceId`.
    pub trace: u128,
    /// Its own id; `opentelemetry::trace::SpanId`.
    pub span: u64,
}

impl SpanContext {
    /// Whether it names a span: neither id is 0.
    pub fn is_valid(&self) -> bool
        ensures { result ≡ valid_ids self.now }
    {
        self.trace != 0 && self.span != 0
    }

    /// The parent id of a span that is started under it: its span id if it is valid, else 0.
    pub fn parent_id(&self) -> u64
        ensures { result ≡ id_of_parent self.now }
    {
        if self.is_valid() { self.span } else { 0 }
    }
}

/// What new spans get their parent from; `opentelemetry::Context`, without values and baggage. It has the ids of a
/// span or is empty.
#[derive(Clone, Copy, PartialEq, Eq)]
pub struct Context {
    /// The ids of its span, if it has one.
    pub span: Option<SpanContext>,
}

impl Context {
    /// The context without a span.
    pub fn empty() -> Context
        ensures { result.span ≡ None }
    {
        Context { span: None }
    }

    /// The ids of its span, both 0 if it has none.
    pub fn span_context(&self) -> SpanContext
        ensures { result ≡ ids_of self.now }
    {
        match self.span {
            Some(ids) => ids,
            None => SpanContext { trace: 0, span: 0 },
        }
    }
}
