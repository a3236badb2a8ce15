//! Images as they are written in the table.

use crate::instructions::code;
use crate::words::{behind, layout, layouts, name, number, word};
use evo_base::List;
use evo_code::{ClassTable, ConfTable, Entry, Function, Image, Level, SizeWords, Symbol, Target};
use std::alloc::{AllocError, Global};

fn level(word: &str) -> Level {
    match word {
        "0" => Level::Zero,
        "1" => Level::One,
        "2" => Level::Two,
        "3" => Level::Three,
        _ => Level::Timed,
    }
}

// A function: its symbol, level, slots, parameters and result, and behind a colon its code.
fn function(alloc: Global, line: &str) -> Result<Function, AllocError> {
    let (head, rest) = line.split_once(": ").unwrap_or((line, ""));
    let symbol = name(alloc, word(head, 0))?;
    let slots = layouts(alloc, word(head, 2))?;
    let result = layout(alloc, word(head, 4))?;
    let code = code(alloc, rest)?;
    Ok(Function {
        symbol,
        level: level(word(head, 1)),
        exported: true,
        slots,
        params: number(word(head, 3)),
        result,
        code,
    })
}

// The function `main#start`: its slots, and behind a colon its code.
fn main_function(alloc: Global, line: &str) -> Result<Function, AllocError> {
    let (slots, rest) = line.split_once(": ").unwrap_or((line, ""));
    let symbol = name(alloc, "main#start")?;
    let slots = layouts(alloc, slots)?;
    let result = layout(alloc, "0")?;
    let code = code(alloc, rest)?;
    Ok(Function {
        symbol,
        level: Level::Timed,
        exported: true,
        slots,
        params: 0,
        result,
        code,
    })
}

fn any_function(alloc: Global, line: &str) -> Result<Option<Function>, AllocError> {
    if let Some(rest) = behind(line, "main") {
        return Ok(Some(main_function(alloc, rest)?));
    }
    match behind(line, "function") {
        Some(rest) => Ok(Some(function(alloc, rest)?)),
        None => Ok(None),
    }
}

fn functions(alloc: Global, case: &str) -> Result<List<Function>, AllocError> {
    let mut found = Vec::new(alloc);
    for line in case.lines() {
        if let Some(function) = any_function(alloc, line)? {
            found.push(function)?;
        }
    }
    Ok(List::from_vec(found))
}

fn size(alloc: Global, line: &str) -> Result<SizeWords, AllocError> {
    let symbol = name(alloc, word(line, 0))?;
    Ok(SizeWords {
        symbol,
        words: number(word(line, 1)),
    })
}

fn sizes(alloc: Global, case: &str) -> Result<List<SizeWords>, AllocError> {
    let mut found = Vec::new(alloc);
    for line in case.lines() {
        if let Some(rest) = behind(line, "size") {
            found.push(size(alloc, rest)?)?;
        }
    }
    Ok(List::from_vec(found))
}

fn target(alloc: Global, text: &str) -> Result<Target, AllocError> {
    match text.strip_prefix("@") {
        Some(conformance) => Ok(Target::Table(name(alloc, conformance)?)),
        None => Ok(Target::Code(number(text))),
    }
}

fn entry(alloc: Global, text: &str) -> Result<Entry, AllocError> {
    let (symbol, to) = text.split_once('=').unwrap_or((text, "0"));
    let target = target(alloc, to)?;
    let name = name(alloc, symbol)?;
    Ok(Entry { name, target })
}

// The entries of a table, from this word of a line on.
fn entries(alloc: Global, line: &str, first: usize) -> Result<List<Entry>, AllocError> {
    let mut found = Vec::new(alloc);
    for text in line.split_whitespace().skip(first) {
        found.push(entry(alloc, text)?)?;
    }
    Ok(List::from_vec(found))
}

fn superclass(alloc: Global, text: &str) -> Result<Option<Symbol>, AllocError> {
    if text == "-" {
        return Ok(None);
    }
    Ok(Some(name(alloc, text)?))
}

fn class(alloc: Global, line: &str) -> Result<ClassTable, AllocError> {
    let symbol = name(alloc, word(line, 0))?;
    let superclass = superclass(alloc, word(line, 1))?;
    let entries = entries(alloc, line, 2)?;
    Ok(ClassTable {
        symbol,
        superclass,
        entries,
    })
}

fn classes(alloc: Global, case: &str) -> Result<List<ClassTable>, AllocError> {
    let mut found = Vec::new(alloc);
    for line in case.lines() {
        if let Some(rest) = behind(line, "class") {
            found.push(class(alloc, rest)?)?;
        }
    }
    Ok(List::from_vec(found))
}

fn conformance(alloc: Global, line: &str) -> Result<ConfTable, AllocError> {
    let symbol = name(alloc, word(line, 0))?;
    let entries = entries(alloc, line, 1)?;
    Ok(ConfTable { symbol, entries })
}

fn conformances(alloc: Global, case: &str) -> Result<List<ConfTable>, AllocError> {
    let mut found = Vec::new(alloc);
    for line in case.lines() {
        if let Some(rest) = behind(line, "conformance") {
            found.push(conformance(alloc, rest)?)?;
        }
    }
    Ok(List::from_vec(found))
}

/// The number behind a word at the beginning of a line, or another one where no line begins so.
pub fn setting(case: &str, first: &str, otherwise: u64) -> u64 {
    for line in case.lines() {
        if let Some(rest) = behind(line, first) {
            return number(rest);
        }
    }
    otherwise
}

/// The image of a case.
pub fn image(alloc: Global, case: &str) -> Result<Image, AllocError> {
    let functions = functions(alloc, case)?;
    let sizes = sizes(alloc, case)?;
    let classes = classes(alloc, case)?;
    let conformances = conformances(alloc, case)?;
    Ok(Image {
        functions,
        library: setting(case, "library", 0),
        sizes,
        classes,
        conformances,
    })
}
