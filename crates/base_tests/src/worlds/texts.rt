//! Levels, and quoted texts.
use std::test::Fail;
use trace_base::level::{Level, LevelFilter, STATIC_MAX_LEVEL};
use trace_base::quote::quote;

#[test]
fn tells_levels(rt: HostRuntime) {
    let info = LevelFilter::from_level(Level::INFO);
    assert!(rt; info.lets_through(Level::WARN) && info.lets_through(Level::INFO));
    assert!(rt; !info.lets_through(Level::DEBUG) && !LevelFilter::OFF.lets_through(Level::ERROR));
    assert!(rt; Level::WARN < Level::INFO && LevelFilter::OFF < info);
    assert!(rt; info.into_level() == Some(Level::INFO) && LevelFilter::OFF.into_level() == None);
    assert!(rt; STATIC_MAX_LEVEL == LevelFilter::TRACE);
    assert!(rt; Level::WARN.as_str() == "WARN" && info.as_str() == "info");
}

// Each kind of character: quotes, backslashes, all controls of ASCII and what is none.
const TEXT: &str =
    "say \"hi\" a\\b it's ~\u{7f}\u{80}\0\t\n\r\u{1}\u{2}\u{3}\u{4}\u{5}\u{6}\u{7}\u{8}\u{b}\u{c}\u{e}\u{f}\u{10}\u{11}\u{12}\u{13}\u{14}\u{15}\u{16}\u{17}\u{18}\u{19}\u{1a}\u{1b}\u{1c}\u{1d}\u{1e}\u{1f}grün \u{a0}\u{200b} 日本 🦀";

const QUOTED: &str =
    "\"say \\\"hi\\\" a\\\\b it's ~\\u{7f}\u{80}\\0\\t\\n\\r\\u{1}\\u{2}\\u{3}\\u{4}\\u{5}\\u{6}\\u{7}\\u{8}\\u{b}\\u{c}\\u{e}\\u{f}\\u{10}\\u{11}\\u{12}\\u{13}\\u{14}\\u{15}\\u{16}\\u{17}\\u{18}\\u{19}\\u{1a}\\u{1b}\\u{1c}\\u{1d}\\u{1e}\\u{1f}grün \u{a0}\u{200b} 日本 🦀\"";

#[test]
fn quotes_texts(rt: HostRuntime) -> Result<(), Fail> {
    assert_eq!(rt; quote(rt.alloc(), TEXT)?.as_str(), QUOTED);
    assert_eq!(rt; quote(rt.alloc(), "")?.as_str(), "\"\"");
    Ok(())
}
