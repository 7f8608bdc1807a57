//! A filter, and the calls that are made of it.
use crate::{answers, exchanging, targets, variables, words};
use env_directives::{Directive, ParseError};
use env_filter::{Builder, EnvFilter, Ignored};
use explain_base::filters::{filter_line, push_filter};
use explain_base::levels::{level_line, levels_line};
use otel_base::memory::Memory;
use std::alloc::Global;
use std::mem;
use trace_base::callsite::{Callsite, Kind};
use trace_base::field::ValueSet;
use trace_base::layer::Layer;
use trace_base::level::LevelFilter;
use trace_base::span::{Id, Parent};

/// A filter, and the callsites that were named so far. Spans and lanes are numbers.
#[derive(Drop)]
pub struct Session {
    alloc: Global,
    filter: EnvFilter,
    callsites: Vec<Callsite>,
}

impl Session {
    /// A filter without directives, and no callsite.
    pub fn new(alloc: Global) -> Session {
        Session {
            alloc,
            filter: EnvFilter::default(alloc),
            callsites: Vec::new(alloc),
        }
    }

    /// Makes the call of a line, and tells what the filter answers to it.
    pub fn answer(&mut self, line: &str) -> Result<String, Memory> {
        let (call, words) = line.split_once(' ').unwrap_or((line, ""));
        match call {
            "new" => self.renew(words),
            "lossy" => self.renew_lossy(words),
            "strict" => self.renew_strict(words, true),
            "fixed" => self.renew_strict(words, false),
            "add" => self.add(words),
            "span" => self.declare(Kind::Span, words),
            "event" => self.declare(Kind::Event, words),
            _ => self.answer_on_filter(call, words),
        }
    }

    // The calls that make a filter of the one in place, or of variables.
    fn answer_on_filter(&mut self, call: &str, words: &str) -> Result<String, Memory> {
        match call {
            "default" => self.renew_with_default(words),
            "clone" => self.copy(),
            "current" => self.copy_current(),
            "reload" => self.exchange(words),
            "try_new" => self.put_read(EnvFilter::try_new(self.alloc, words)),
            "from_str" => self.put_read(EnvFilter::from_str(self.alloc, words)),
            "vars" => variables::read_memory_variables(self.alloc, words),
            "vars_lossy" => variables::read_variables_lossy(self.alloc, words),
            "var" => variables::read_value(self.alloc, words),
            _ => self.answer_on_number(call, words),
        }
    }

    // The calls on a span, or on a callsite, of which the first word is the number.
    fn answer_on_number(&mut self, call: &str, words: &str) -> Result<String, Memory> {
        let (first, more) = words.split_once(' ').unwrap_or((words, ""));
        let Some(number) = words::number(first) else {
            return answers::no_call_line(self.alloc);
        };
        match call {
            "make" => self.make(Id::at(number), more),
            "record" => self.record(Id::at(number), more),
            "enter" => self.enter(Id::at(number), more),
            "exit" => self.exit(Id::at(number), more),
            "close" => self.close(Id::at(number)),
            "ask" => self.ask(number, more),
            "retired" => self.ask_retired(number, more),
            "targets" => self.ask_targets(number, more),
            _ => answers::no_call_line(self.alloc),
        }
    }

    // The filter of the pieces that are directives, and errors where there is none.
    fn renew(&mut self, text: &str) -> Result<String, Memory> {
        let filter = EnvFilter::new(self.alloc, text)?;
        self.put(filter)
    }

    // Puts a filter in place.
    fn put(&mut self, filter: EnvFilter) -> Result<String, Memory> {
        self.set(filter);
        filter_line(self.alloc, &self.filter)
    }

    fn set(&mut self, filter: EnvFilter) {
        self.filter = filter;
    }

    // The same, and the other pieces are told.
    fn renew_lossy(&mut self, text: &str) -> Result<String, Memory> {
        let ignored = self.put_lossy(text)?;
        let mut told = answers::ignored_lines(self.alloc, ignored.as_slice())?;
        push_filter(self.alloc, &mut told, &self.filter)?;
        Ok(told)
    }

    // Puts that filter in place; the pieces that are no directives come back.
    fn put_lossy(&mut self, text: &str) -> Result<Vec<Ignored>, Memory> {
        let (filter, ignored) = read_lossy(self.alloc, text)?;
        self.set(filter);
        Ok(ignored)
    }

    // The filter of a text, or the first piece that is no directive.
    fn renew_strict(&mut self, text: &str, patterns: bool) -> Result<String, Memory> {
        match read_strict(self.alloc, text, patterns) {
            Ok(filter) => self.put(filter),
            Err((piece, fault)) => answers::refusal_line(self.alloc, piece, fault),
        }
    }

    // Puts a filter in place, if one was read.
    fn put_read(&mut self, read: Result<EnvFilter, ParseError>) -> Result<String, Memory> {
        match read {
            Ok(filter) => self.put(filter),
            Err(fault) => answers::fault_line(self.alloc, fault),
        }
    }

    // The filter of the empty text, where that has a default directive.
    fn renew_with_default(&mut self, text: &str) -> Result<String, Memory> {
        let Ok(directive) = Directive::parse(self.alloc, text, true) else {
            return answers::no_call_line(self.alloc);
        };
        let filter = filter_with_default(self.alloc, directive)?;
        self.put(filter)
    }

    // A directive more.
    fn add(&mut self, text: &str) -> Result<String, Memory> {
        let Ok(directive) = Directive::parse(self.alloc, text, true) else {
            return answers::no_call_line(self.alloc);
        };
        let filter = mem::replace(&mut self.filter, EnvFilter::default(self.alloc));
        match filter.add_directive(directive) {
            Ok(filter) => self.put(filter),
            Err((filter, memory)) => {
                self.set(filter);
                Err(memory)
            }
        }
    }

    // Puts a clone of the filter in its place.
    fn copy(&mut self) -> Result<String, Memory> {
        let copy = self.filter.clone_filter()?;
        self.put(copy)
    }

    // Puts what a layer over the filter has as a copy of it in its place.
    fn copy_current(&mut self) -> Result<String, Memory> {
        let filter = mem::replace(&mut self.filter, EnvFilter::default(self.alloc));
        match exchanging::copy_current(filter)? {
            Some(copy) => self.put(copy),
            None => answers::no_call_line(self.alloc),
        }
    }

    // Exchanges the filter for that of a text.
    fn exchange(&mut self, text: &str) -> Result<String, Memory> {
        let next = EnvFilter::new(self.alloc, text)?;
        let filter = mem::replace(&mut self.filter, EnvFilter::default(self.alloc));
        match exchanging::exchange(filter, next) {
            Some(filter) => self.put(filter),
            None => answers::no_call_line(self.alloc),
        }
    }

    // Names a callsite, and asks the filter for its interest.
    fn declare(&mut self, kind: Kind, words: &str) -> Result<String, Memory> {
        let Some(callsite) = words::callsite(self.alloc, kind, words)? else {
            return answers::no_call_line(self.alloc);
        };
        let interest = self.filter.register_callsite(&callsite);
        let number = self.callsites.len();
        self.callsites.push(callsite)?;
        Ok(format!(in self.alloc; "  callsite {number}: {interest:?}\n")?)
    }

    // A span is made at a callsite, with values.
    fn make(&mut self, span: Id, words: &str) -> Result<String, Memory> {
        let (first, more) = words.split_once(' ').unwrap_or((words, ""));
        let Some(callsite) = callsite_at(self.callsites.as_slice(), first) else {
            return answers::no_call_line(self.alloc);
        };
        let values = words::values(self.alloc, callsite, more)?;
        let made = make_span(self.alloc, &mut self.filter, span, callsite, &values);
        drop(values);
        made?;
        level_line(self.alloc, self.filter.level(span))
    }

    // Values are recorded on a span of a callsite.
    fn record(&mut self, span: Id, words: &str) -> Result<String, Memory> {
        let (first, more) = words.split_once(' ').unwrap_or((words, ""));
        let Some(callsite) = callsite_at(self.callsites.as_slice(), first) else {
            return answers::no_call_line(self.alloc);
        };
        let values = words::values(self.alloc, callsite, more)?;
        let recorded = record_on(&mut self.filter, span, callsite, &values);
        drop(values);
        recorded?;
        level_line(self.alloc, self.filter.level(span))
    }

    // A span is entered on a lane.
    fn enter(&mut self, span: Id, lane: &str) -> Result<String, Memory> {
        let Some(lane) = words::number(lane) else {
            return answers::no_call_line(self.alloc);
        };
        let mut at = words::lane(self.alloc, lane);
        // A filter attaches nothing to lanes, so an entry is refused for want of memory alone.
        let Ok(prepared) = self.filter.prepare_enter(span, &mut at) else {
            return Err(Memory);
        };
        self.filter
            .on_enter(prepared, span, &mut words::lane(self.alloc, lane), 0);
        levels_line(self.alloc, self.filter.levels(lane))
    }

    // A span is exited on a lane.
    fn exit(&mut self, span: Id, lane: &str) -> Result<String, Memory> {
        let Some(lane) = words::number(lane) else {
            return answers::no_call_line(self.alloc);
        };
        self.filter
            .on_exit(span, &mut words::lane(self.alloc, lane), 0);
        levels_line(self.alloc, self.filter.levels(lane))
    }

    // A span closes.
    fn close(&mut self, span: Id) -> Result<String, Memory> {
        self.filter.on_close(span, 0);
        level_line(self.alloc, self.filter.level(span))
    }

    // Whether the filter lets a callsite through on a lane.
    fn ask(&self, callsite: u64, lane: &str) -> Result<String, Memory> {
        let Some(lane) = words::number(lane) else {
            return answers::no_call_line(self.alloc);
        };
        match self.callsites.get(callsite as usize) {
            Some(callsite) => answers::gate_line(self.alloc, &self.filter, lane, callsite),
            None => answers::no_call_line(self.alloc),
        }
    }

    // What a layer answers of a callsite on a lane once its filter was taken out.
    fn ask_retired(&self, callsite: u64, lane: &str) -> Result<String, Memory> {
        let Some(lane) = words::number(lane) else {
            return answers::no_call_line(self.alloc);
        };
        match self.callsites.get(callsite as usize) {
            Some(callsite) => exchanging::retirement_line(self.alloc, lane, callsite),
            None => answers::no_call_line(self.alloc),
        }
    }

    // What targets answer of a callsite.
    fn ask_targets(&self, callsite: u64, words: &str) -> Result<String, Memory> {
        let Some(callsite) = self.callsites.get(callsite as usize) else {
            return answers::no_call_line(self.alloc);
        };
        match targets::answer_lines(self.alloc, callsite, words)? {
            Some(told) => Ok(told),
            None => answers::no_call_line(self.alloc),
        }
    }
}

// The filter of the pieces that are directives, and errors where there is none; and the other pieces.
fn read_lossy(alloc: Global, text: &str) -> Result<(EnvFilter, Vec<Ignored>), Memory> {
    let errors = Directive::from_filter(alloc, LevelFilter::ERROR);
    let builder = Builder::default(alloc).with_default_directive(errors);
    builder.parse_lossy(text)
}

// The filter of a text, or the number and the fault of the first piece that is no directive.
fn read_strict(alloc: Global, text: &str, patterns: bool) -> Result<EnvFilter, (u64, ParseError)> {
    let builder = Builder::default(alloc).with_regex(patterns);
    builder.parse_pieces(text)
}

fn make_span(
    alloc: Global,
    filter: &mut EnvFilter,
    span: Id,
    callsite: &Callsite,
    values: &ValueSet,
) -> Result<(), Memory> {
    let lane = words::lane(alloc, 0);
    let prepared = filter.prepare_new_span(&lane, callsite, values)?;
    filter.on_new_span(
        prepared,
        span,
        &lane,
        0,
        Parent::Current,
        None,
        callsite,
        values,
    );
    Ok(())
}

fn record_on(
    filter: &mut EnvFilter,
    span: Id,
    callsite: &Callsite,
    values: &ValueSet,
) -> Result<(), Memory> {
    let prepared = filter.prepare_record(span, callsite, values)?;
    filter.on_record(prepared, span, 0, callsite, values);
    Ok(())
}

// The filter of the empty text, by a copy of a builder that takes no patterns and has a default directive.
fn filter_with_default(alloc: Global, directive: Directive) -> Result<EnvFilter, Memory> {
    let builder = Builder::default(alloc)
        .with_regex(false)
        .with_default_directive(directive);
    empty_text_filter_by_copy(&builder)
}

fn empty_text_filter_by_copy(builder: &Builder) -> Result<EnvFilter, Memory> {
    let copy = builder.clone_builder()?;
    empty_text_filter(&copy)
}

// What a builder makes of the empty text, in which no piece has a fault.
fn empty_text_filter(builder: &Builder) -> Result<EnvFilter, Memory> {
    match builder.parse("") {
        Ok(filter) => Ok(filter),
        Err(_) => Err(Memory),
    }
}

// The callsite that a word is the number of.
fn callsite_at<'c>(callsites: &'c [Callsite], word: &str) -> Option<&'c Callsite> {
    let number = words::number(word)?;
    callsites.get(number as usize)
}
