//! Records by their traces, and each trace as rows: a span under its parent.
use crate::record::Record;
use convert_base::Fault;
use std::alloc::Global;
use std::collections::BTreeMap;

/// The finished spans of one trace.
#[derive(Drop)]
pub struct Trace {
    pub id: String,
    pub records: Vec<Record>,
}

/// All records, by their traces, in the order in which these were met. They are kept until the input's end.
#[derive(Drop)]
pub struct Traces {
    places: BTreeMap<String, usize>,
    traces: Vec<Trace>,
}

/// A span of a trace: its place among the trace's records, and how many of these stand above it.
#[derive(Clone, Copy)]
pub struct Row {
    pub place: usize,
    pub depth: usize,
}

impl Traces {
    /// No records.
    pub fn new(alloc: Global) -> Traces {
        Traces {
            places: BTreeMap::new(alloc),
            traces: Vec::new(alloc),
        }
    }

    /// Adds a record to its trace.
    pub fn add(&mut self, alloc: Global, record: Record) -> Result<(), Fault> {
        let place = self.place_or_add(alloc, record.trace.as_str())?;
        if let Some(trace) = self.traces.get_mut(place) {
            trace.records.push(record)?;
        }
        Ok(())
    }

    /// The traces, the spans of each in the order of their starts, the longer one first.
    pub fn into_sorted(mut self) -> Result<Vec<Trace>, Fault> {
        for trace in self.traces.iter_mut() {
            trace
                .records
                .sort_by_key(|record| (record.start, u64::MAX - record.end))?;
        }
        Ok(self.traces)
    }

    fn place_or_add(&mut self, alloc: Global, id: &str) -> Result<usize, Fault> {
        if let Some(place) = self.places.get(id) {
            return Ok(*place);
        }
        let place = self.traces.len();
        self.places.insert(id.to_string(alloc)?, place)?;
        self.traces.push(Trace {
            id: id.to_string(alloc)?,
            records: Vec::new(alloc),
        })?;
        Ok(place)
    }
}

// Which records stand below which, by their places.
#[derive(Drop)]
struct SpanTree {
    roots: Vec<usize>,
    children: Vec<Vec<usize>>,
}

impl Trace {
    /// How many spans the trace has, in words.
    pub fn size_text(&self, alloc: Global) -> Result<String, Fault> {
        let count = self.records.len();
        let plural = if count == 1 { "" } else { "s" };
        Ok(format!(in alloc; "{count} span{plural}")?)
    }

    /// When the first span of the trace started and the last one ended, in nanoseconds.
    pub fn times(&self) -> (u64, u64) {
        let mut start = u64::MAX;
        let mut end = 0;
        for record in self.records.iter() {
            start = start.min(record.start);
            end = end.max(record.end);
        }
        (start.min(end), end)
    }

    /// The spans, each behind its parent, those of one parent in the order of the records. A span whose parent has no
    /// record here, or no lower id, stands at the outside.
    pub fn rows(&self, alloc: Global) -> Result<Vec<Row>, Fault> {
        let span_tree = self.span_tree(alloc)?;
        let mut rows = Vec::new(alloc);
        let mut waiting = Vec::new(alloc);
        push_rows(&mut waiting, span_tree.roots.as_slice(), 0)?;
        for _ in 0..self.records.len() {
            let Some(row) = waiting.pop() else { break };
            rows.push(row)?;
            if let Some(below) = span_tree.children.get(row.place) {
                push_rows(&mut waiting, below.as_slice(), row.depth.saturating_add(1))?;
            }
        }
        Ok(rows)
    }

    fn span_tree(&self, alloc: Global) -> Result<SpanTree, Fault> {
        let places = self.places(alloc)?;
        let mut roots = Vec::new(alloc);
        let mut children = self.empty_child_lists(alloc)?;
        for (place, record) in self.records.iter().enumerate() {
            let parent = record.parent.as_str();
            let under = if parent < record.span.as_str() {
                places.get(parent)
            } else {
                None
            };
            match under.and_then(|above| children.get_mut(*above)) {
                Some(below) => below.push(place)?,
                None => roots.push(place)?,
            }
        }
        Ok(SpanTree { roots, children })
    }

    // Where each span's record stands.
    fn places(&self, alloc: Global) -> Result<BTreeMap<String, usize>, Fault> {
        let mut places = BTreeMap::new(alloc);
        for (place, record) in self.records.iter().enumerate() {
            places.insert(record.span.as_str().to_string(alloc)?, place)?;
        }
        Ok(places)
    }

    fn empty_child_lists(&self, alloc: Global) -> Result<Vec<Vec<usize>>, Fault> {
        let mut children = Vec::new(alloc);
        for _ in self.records.iter() {
            children.push(Vec::new(alloc))?;
        }
        Ok(children)
    }
}

// Puts rows onto a stack, the first of them on top.
fn push_rows(waiting: &mut Vec<Row>, places: &[usize], depth: usize) -> Result<(), Fault> {
    for place in places.iter().rev() {
        waiting.push(Row {
            place: *place,
            depth,
        })?;
    }
    Ok(())
}
