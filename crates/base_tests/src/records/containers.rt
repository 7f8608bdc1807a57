//! Texts and lists give back what they were made of, and errors have texts.
use crate::worlds::callsites::text;
use otel_base::enter_error::EnterError;
use otel_base::list::Items;
use otel_base::memory::Memory;
use otel_base::text::Text;
use otel_base::word::Word;
use std::alloc::Global;
use std::test::Fail;
use trace_base::dispatcher::TryInitError;

// Whether a text is given back as a string, and a copy of it is the same.
fn text_is_given_back(alloc: Global, made: &str) -> Result<bool, Memory> {
    let kept = text(alloc, made)?;
    let same = kept.clone()? == kept;
    Ok(kept.into_string(alloc)?.as_str() == made && same)
}

// Whether a fixed word is given back as a string.
fn word_is_given_back(alloc: Global) -> Result<bool, Memory> {
    let fixed = Text::from_word(Word::Level);
    Ok(fixed.into_string(alloc)?.as_str() == "level")
}

#[test]
fn gives_texts_back(rt: HostRuntime) {
    for made in ["", "span", "sixteen bytes ..", "seventeen bytes .."] {
        assert_eq!(rt; text_is_given_back(rt.alloc(), made), Ok(true));
    }
    assert_eq!(rt; word_is_given_back(rt.alloc()), Ok(true));
}

// Whether a text is before a fixed word, and whether it is behind it.
fn beside_level(alloc: Global, made: &str) -> Result<(bool, bool), Memory> {
    let made = text(alloc, made)?;
    let level = Text::from_word(Word::Level);
    Ok((made < level, made > level))
}

#[test]
fn orders_texts_by_bytes(rt: HostRuntime) {
    for (made, before, behind) in [
        ("", true, false),
        ("Level", true, false),
        ("leve", true, false),
        ("level", false, false),
        ("level ", false, true),
        ("m", false, true),
        ("\u{e9}", false, true),
    ] {
        assert_eq!(rt; beside_level(rt.alloc(), made), Ok((before, behind)));
    }
}

// A list that is pushed to, made a vector, and a list again.
fn three(alloc: Global) -> Result<Items<u8>, Memory> {
    let mut items = Items::new(alloc);
    items.push(3u8)?;
    items.push(5u8)?;
    let mut more = Items::from(items.into_vec());
    more.push(7u8)?;
    Ok(more)
}

#[test]
fn keeps_items_in_order(rt: HostRuntime) -> Result<(), Fail> {
    let three = three(rt.alloc())?;
    assert_eq!(rt; three.as_slice(), [3u8, 5, 7].as_slice());
    Ok(())
}

#[test]
fn tells_errors(rt: HostRuntime) -> Result<(), Fail> {
    let (full, memory) = (EnterError::Full, EnterError::Memory);
    let set = TryInitError::AlreadySet;
    let told = format!(in rt.alloc(); "{Memory}; {memory}; {full}; {set}")?;
    assert_eq!(rt;
        told.as_str(),
        "out of memory; out of memory; as many contexts are live as may be; a global default is already set"
    );
    Ok(())
}
