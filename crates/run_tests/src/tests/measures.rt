//! The line of a measure, and the end line behind measures.
use otel_base::list::Items;
use otel_base::text::Text;
use otel_metrics::measure::{Measure, MetricKind};
use std::test::Fail;
use trace_lines::{measure_line, measures_end_line};

// The line of a measure.
fn line<R: AllocGlobal>(rt: &R) -> Result<String, Fail> {
    let queue = Measure {
        kind: MetricKind::GaugeI64,
        name: Text::from_str(rt.alloc(), "queue")?,
        value: -3,
        attributes: Items::new(rt.alloc()),
    };
    let line = measure_line(rt.alloc(), 5, &queue);
    Ok(line?)
}

#[test]
fn writes_measures(rt: HostRuntime) -> Result<(), Fail> {
    let line = line(&rt)?;
    assert!(rt;
        line.as_str()
            == "{\"attributes\":[],\"instrument\":\"gauge_i64\",\"line\":5,\"name\":\"queue\",\"value\":-3}\n"
    );
    let end = measures_end_line(rt.alloc(), 1)?;
    assert!(rt; end.as_str() == "{\"done\":true,\"measures\":1}\n");
    Ok(())
}
