//! Filters from variables.
use crate::answers;
use env_filter::{Builder, EnvFilter, FromEnvError, MemVars, SysVars, Vars};
use explain_base::filters::{filter_line, push_filter};
use otel_base::list::Items;
use otel_base::memory::Memory;
use otel_base::text::Text;
use std::alloc::Global;
use std::env::Env;

/// What is read of variables in memory, of words `NAME=TEXT`: leniently, and where it has to be set.
pub fn read_memory_variables(alloc: Global, words: &str) -> Result<String, Memory> {
    let vars = MemVars::new(alloc, pairs(alloc, words)?);
    let mut told = read_default_env(alloc, &vars)?;
    push_required(alloc, &mut told, &vars)?;
    Ok(told)
}

fn read_default_env(alloc: Global, vars: &MemVars) -> Result<String, Memory> {
    let filter = EnvFilter::from_default_env(alloc, vars)?;
    filter_line(alloc, &filter)
}

fn push_required(alloc: Global, told: &mut String, vars: &MemVars) -> Result<(), Memory> {
    let line = read_result_line(alloc, EnvFilter::try_from_default_env(alloc, vars))?;
    told.push_str(line.as_str())?;
    Ok(())
}

/// What is read of them leniently and without a default, with the pieces that were left out.
pub fn read_variables_lossy(alloc: Global, words: &str) -> Result<String, Memory> {
    let vars = MemVars::new(alloc, pairs(alloc, words)?);
    let (filter, ignored) = EnvFilter::builder(alloc).from_env_lossy(&vars)?;
    let mut told = answers::ignored_lines(alloc, ignored.as_slice())?;
    push_filter(alloc, &mut told, &filter)?;
    Ok(told)
}

fn pairs(alloc: Global, words: &str) -> Result<Items<(Text, Text)>, Memory> {
    let mut pairs = Items::new(alloc);
    for word in words.split(' ') {
        push_pair(alloc, &mut pairs, word)?;
    }
    Ok(pairs)
}

fn push_pair(alloc: Global, pairs: &mut Items<(Text, Text)>, word: &str) -> Result<(), Memory> {
    let Some((name, held)) = word.split_once('=') else {
        return Ok(());
    };
    let pair = (text(alloc, name)?, text(alloc, held)?);
    pairs.push(pair)?;
    Ok(())
}

/// What is read of what a variable gave; of none where there is no word.
pub fn read_value(alloc: Global, words: &str) -> Result<String, Memory> {
    let held = value_of(alloc, words)?;
    let builder = EnvFilter::builder(alloc);
    read_result_line(alloc, builder.from_var(held))
}

fn value_of(alloc: Global, words: &str) -> Result<Option<String>, Memory> {
    if words.is_empty() {
        return Ok(None);
    }
    Ok(Some(String::from_str(alloc, words)?))
}

/// What a reader makes of a variable of the process, of words `READER NAME`.
pub fn read_process_variable<R: Env>(alloc: Global, rt: &R, words: &str) -> Result<String, Memory> {
    let vars = SysVars::new(alloc, rt);
    let (reader, name) = words.split_once(' ').unwrap_or((words, ""));
    match reader {
        "from_env" => read(alloc, name, &vars),
        "try_from_env" => read_result_line(alloc, EnvFilter::try_from_env(alloc, name, &vars)),
        "builder.from_env" => read_by_builder(alloc, name, &vars),
        "builder.try_from_env" => try_read_by_builder(alloc, name, &vars),
        _ => answers::no_call_line(alloc),
    }
}

fn read<V: Vars>(alloc: Global, name: &str, vars: &V) -> Result<String, Memory> {
    let filter = EnvFilter::from_env(alloc, name, vars)?;
    filter_line(alloc, &filter)
}

fn read_by_builder<V: Vars>(alloc: Global, name: &str, vars: &V) -> Result<String, Memory> {
    let builder = builder(alloc, name)?;
    read_result_line(alloc, builder.from_env(vars))
}

fn try_read_by_builder<V: Vars>(alloc: Global, name: &str, vars: &V) -> Result<String, Memory> {
    let builder = builder(alloc, name)?;
    read_result_line(alloc, builder.try_from_env(vars))
}

// A builder that reads the variable of a name.
fn builder(alloc: Global, name: &str) -> Result<Builder, Memory> {
    let name = String::from_str(alloc, name)?;
    Ok(EnvFilter::builder(alloc).with_env_var(name))
}

fn read_result_line(
    alloc: Global,
    read: Result<EnvFilter, FromEnvError>,
) -> Result<String, Memory> {
    match read {
        Ok(filter) => filter_line(alloc, &filter),
        Err(fault) => fault_line(alloc, fault),
    }
}

fn fault_line(alloc: Global, fault: FromEnvError) -> Result<String, Memory> {
    if fault == FromEnvError::Memory {
        return Err(Memory);
    }
    Ok(format!(in alloc; "  {fault:?}, {fault}\n")?)
}

fn text(alloc: Global, word: &str) -> Result<Text, Memory> {
    Text::from_str(alloc, word)
}
