//! What no line of the program's input shows of directives: how they are made, kept, cloned and handed out.
use crate::worlds::callsites::text;
use env_directives::{
    BadFieldName, BadName, Directive, DirectiveSet, MatchDebug, StaticDirective, Targets,
    ValueMatch,
};
use otel_base::memory::Memory;
use std::alloc::Global;
use std::fmt::Write;
use std::test::Fail;
use trace_base::field::Value;
use trace_base::level::{Level, LevelFilter};

const STRUCT: &str = "MyStruct { answer: 42, question: \"life, the universe, and everything\" }";

// Fixed texts, and whether that debug form with commas meets them.
const FIXED_TEXTS: [(&str, bool); 5] = [
    (
        "MyStruct { answer: 42, question: \"life, the universe, and everything\" }",
        true,
    ),
    (
        "MyStruct { answer: 42, question: \"what shall I call you?\" }",
        false,
    ),
    (
        "MyStruct { answer: 42, question: \"life, the universe, and everything\"",
        false,
    ),
    (
        "MyStruct { answer: 42, question: \"life, the universe, and everything\" } ",
        false,
    ),
    ("MyStruct", false),
];

// Whether a debug form meets what is asked.
fn meets(alloc: Global, asked: &ValueMatch, form: &str) -> Result<bool, Memory> {
    let value = Value::Debug(text(alloc, form)?);
    asked.is_met_by(alloc, &value)
}

// Whether the debug form of the struct meets a fixed text.
fn is_met(alloc: Global, fixed: &str) -> Result<bool, Memory> {
    let asked = ValueMatch::Debug(MatchDebug::new(text(alloc, fixed)?));
    meets(alloc, &asked, STRUCT)
}

#[test]
fn meets_fixed_texts(rt: HostRuntime) {
    for (fixed, wanted) in FIXED_TEXTS {
        assert_eq!(rt; is_met(rt.alloc(), fixed), Ok(wanted));
    }
}

// The first pattern of a directive, if it is of this text, made a fixed text.
fn fixed_pattern(directive: &Directive, wanted: &str) -> Result<ValueMatch, Fail> {
    for field in directive.fields() {
        if let Some(ValueMatch::Pat(pattern)) = &field.value {
            if pattern.as_str() == wanted {
                return Ok(ValueMatch::Debug(pattern.clone()?.into_debug_match()));
            }
        }
    }
    Err(Fail::from("no such pattern"))
}

// A pattern made a fixed text, from a copy of its directive.
fn pattern_of_copy(alloc: Global) -> Result<ValueMatch, Fail> {
    let directive = Directive::from_str(alloc, "[{f=a.c}]")?.clone_directive()?;
    fixed_pattern(&directive, "a.c")
}

// Whether a pattern that was made a fixed text is met by its own text, and by what it would match.
fn fixed_text_answers(alloc: Global) -> Result<[Result<bool, Memory>; 2], Fail> {
    let fixed = pattern_of_copy(alloc)?;
    Ok([meets(alloc, &fixed, "a.c"), meets(alloc, &fixed, "abc")])
}

#[test]
fn makes_fixed_texts_of_patterns(rt: HostRuntime) -> Result<(), Fail> {
    assert!(rt; fixed_text_answers(rt.alloc())? == [Ok(true), Ok(false)]);
    let told = pattern_of_copy(rt.alloc())?.to_string(rt.alloc())?;
    assert_eq!(rt; told.as_str(), "a.c");
    Ok(())
}

// Directives that are made of levels, as they print.
fn level_directives(alloc: Global) -> Result<String, Fail> {
    let level = Directive::from_level(alloc, Level::DEBUG);
    let filter = Directive::from_filter(alloc, LevelFilter::WARN);
    Ok(format!(in alloc; "{level} {filter}")?)
}

// Those that are made of nothing.
fn defaults_text(alloc: Global) -> Result<String, Fail> {
    let default = Directive::default(alloc);
    let errors = StaticDirective::default(alloc);
    Ok(format!(in alloc; "{default} {errors}")?)
}

// A name that isn't valid.
fn fault_text(alloc: Global) -> Result<String, Fail> {
    let name = text(alloc, "x")?;
    let fault: BadFieldName = BadName { name };
    Ok(format!(in alloc; "{fault} {fault:?}")?)
}

#[test]
fn makes_directives_of_levels(rt: HostRuntime) -> Result<(), Fail> {
    assert_eq!(rt; level_directives(rt.alloc())?.as_str(), "debug warn");
    assert_eq!(rt; defaults_text(rt.alloc())?.as_str(), "off error");
    let fault = fault_text(rt.alloc())?;
    assert_eq!(rt;
        fault.as_str(),
        "invalid field name `x` BadName { name: \"x\" }"
    );
    Ok(())
}

type Set = DirectiveSet<StaticDirective>;

const ADDED: [&str; 6] = [
    "info",
    "app=trace",
    "db[{a}]=warn",
    "app[{b}]=off",
    "db[{a,,b}]=error",
    "app=debug",
];

// A set of those, added in turn.
fn directive_set(alloc: Global) -> Result<Set, Fail> {
    let mut set = DirectiveSet::new(alloc);
    for text in ADDED {
        set.add(StaticDirective::from_str(alloc, text)?)?;
    }
    Ok(set)
}

// A set of what a copy of a set hands out.
fn remade_set(alloc: Global, set: &Set) -> Result<Set, Fail> {
    let mut listed = Vec::new(alloc);
    for directive in set.clone_set()?.into_iter() {
        listed.push(directive)?;
    }
    let mut again = DirectiveSet::new(alloc);
    again.extend(listed)?;
    Ok(again)
}

// The directives of a set, each with a blank behind it, and the greatest level.
fn set_text(alloc: Global, set: &Set) -> Result<String, Fail> {
    let mut told = String::new(alloc);
    for directive in set.iter() {
        write!(told, "{directive} ")?;
    }
    write!(told, "{}", set.max_level())?;
    Ok(told)
}

// Whether a set has nothing, and its greatest level.
fn emptiness_and_level(set: &Set) -> (bool, LevelFilter) {
    (set.is_empty(), set.max_level())
}

// What is kept, and what a set of what that hands out keeps.
fn set_text_once(alloc: Global) -> Result<String, Fail> {
    let kept = directive_set(alloc)?;
    set_text(alloc, &kept)
}

fn set_text_again(alloc: Global) -> Result<String, Fail> {
    let again = remade_set(alloc, &directive_set(alloc)?)?;
    set_text(alloc, &again)
}

#[test]
fn keeps_directives_in_order(rt: HostRuntime) -> Result<(), Fail> {
    assert_eq!(rt;
        emptiness_and_level(&DirectiveSet::new(rt.alloc())),
        (true, LevelFilter::OFF)
    );
    assert_eq!(rt;
        set_text_once(rt.alloc())?.as_str(),
        "app[{b}]=off app=debug db[{a,b}]=error db[{a}]=warn info trace"
    );
    assert_eq!(rt;
        set_text_again(rt.alloc())?.as_str(),
        "app[{b}]=off app=debug db[{a,b}]=error db[{a}]=warn info debug"
    );
    Ok(())
}

const FIVE_TARGETS: &str = "crate1::mod1=error,crate1::mod2,crate2=debug,crate3=off,warn";

// Targets that are set in three ways.
fn targets_set_three_ways(alloc: Global) -> Result<Targets, Fail> {
    let app = String::from_str(alloc, "app")?;
    let Ok(targets) = Targets::new(alloc).with_target(app, LevelFilter::INFO) else {
        return Err(Fail::from("no memory"));
    };
    let Ok(targets) = targets.with_default(LevelFilter::DEBUG) else {
        return Err(Fail::from("no memory"));
    };
    match targets.with_targets(one_target(alloc, "db", LevelFilter::OFF)?) {
        Ok(targets) => Ok(targets),
        Err(_) => Err(Fail::from("no memory")),
    }
}

// Targets that are set in each of the four ways.
fn targets_set_four_ways(alloc: Global) -> Result<Targets, Fail> {
    let mut targets = targets_set_three_ways(alloc)?;
    targets.extend(one_target(alloc, "web", LevelFilter::WARN)?)?;
    Ok(targets)
}

// One target with its level.
fn one_target(
    alloc: Global,
    target: &str,
    level: LevelFilter,
) -> Result<Vec<(String, LevelFilter)>, Fail> {
    Ok(vec![in alloc; (String::from_str(alloc, target)?, level)]?)
}

// The level of targets where none is met, and how they print.
fn targets_text(alloc: Global) -> Result<(Option<LevelFilter>, String), Fail> {
    let targets = targets_set_four_ways(alloc)?;
    Ok((targets.default_level(), targets.to_string(alloc)?))
}

// Whether a copy is equal.
fn copy_is_equal(alloc: Global) -> Result<bool, Fail> {
    let five = Targets::from_str(alloc, FIVE_TARGETS)?;
    Ok(five.clone_targets()? == five)
}

// Whether other targets aren't.
fn others_differ(alloc: Global) -> Result<bool, Fail> {
    let four = targets_set_four_ways(alloc)?;
    Ok(Targets::from_str(alloc, FIVE_TARGETS)? != four)
}

// The pairs that targets give by value, each with a blank behind it.
fn pairs_text(alloc: Global) -> Result<String, Fail> {
    let mut told = String::new(alloc);
    for (target, level) in Targets::from_str(alloc, FIVE_TARGETS)?.into_iter() {
        write!(told, "{}={level} ", target.as_str())?;
    }
    Ok(told)
}

#[test]
fn sets_targets(rt: HostRuntime) -> Result<(), Fail> {
    let (level, told) = targets_text(rt.alloc())?;
    assert!(rt;
        level == Some(LevelFilter::DEBUG) && told.as_str() == "web=warn,app=info,db=off,debug"
    );
    assert!(rt; copy_is_equal(rt.alloc())? && others_differ(rt.alloc())?);
    assert_eq!(rt;
        pairs_text(rt.alloc())?.as_str(),
        "crate1::mod2=trace crate1::mod1=error crate3=off crate2=debug "
    );
    Ok(())
}
