//! Which texts begin with a heading, and what it says.
//!
//! A table is one text: `~` ends a row, and `^` stands between a text and the name and the release that its
//! heading says, or nothing where it has none.

use crate::heading;
use std::alloc::Global;
use std::process::Abort;
use std::test::Fail;

// Both lines, with what may stand behind them.
const LINES: &str = "\
// swift-interface-format-version: 1.0\n// swevo-module: Lib 1.0\n^Lib 1.0~\
// swift-interface-format-version: 1.0\r\n// swevo-module: Lib 1.0\r\n^Lib 1.0~\
// swift-interface-format-version: 1.0\r\n// swevo-module: Lib 2.10\n^Lib 2.10~\
// swift-interface-format-version: 1.0\n// swevo-module: Lib 0.0\r\nimport Swift^Lib 0.0~\
// swift-interface-format-version: 1.0\n// swevo-module: 名前 1.0\n\n^名前 1.0~\
^~\
\n^~\
// swift-interface-format-version: 1.0^~\
// swift-interface-format-version: 1.0\n^~\
// swift-interface-format-version: 1.0\n// swevo-module: Lib 1.0^~\
// swift-interface-format-version: 1.0\n// swevo-module: Lib 1.0\r^~\
// swift-interface-format-version: 1.0\r// swevo-module: Lib 1.0\n^~\
// swift-interface-format-version: 1.0\r\r\n// swevo-module: Lib 1.0\n^~\
// swift-interface-format-version: 1.0\n\n// swevo-module: Lib 1.0\n^~\
// swift-interface-format-version: 1.0 \n// swevo-module: Lib 1.0\n^~\
// swift-interface-format-version: 1.1\n// swevo-module: Lib 1.0\n^~\
\x20// swift-interface-format-version: 1.0\n// swevo-module: Lib 1.0\n^~\
// swift-interface-format-version: 1.0\n// swevo-module: Lib 1.0 \n^~\
// swift-interface-format-version: 1.0\n// swevo-module:  Lib 1.0\n^~\
// swift-interface-format-version: 1.0\n// swevo-module: Lib  1.0\n^~\
// swift-interface-format-version: 1.0\n// swevo-module: Lib\n^~\
// swift-interface-format-version: 1.0\nimport Swift\n^~\
// swevo-module: Lib 1.0\n// swift-interface-format-version: 1.0\n^";

// Names of modules.
const NAMES: &str = "\
// swift-interface-format-version: 1.0\n// swevo-module: _a 1.0\n^_a 1.0~\
// swift-interface-format-version: 1.0\n// swevo-module: get 1.0\n^get 1.0~\
// swift-interface-format-version: 1.0\n// swevo-module: swift 1.0\n^swift 1.0~\
// swift-interface-format-version: 1.0\n// swevo-module:  1.0\n^~\
// swift-interface-format-version: 1.0\n// swevo-module: _ 1.0\n^~\
// swift-interface-format-version: 1.0\n// swevo-module: 1a 1.0\n^~\
// swift-interface-format-version: 1.0\n// swevo-module: a-b 1.0\n^~\
// swift-interface-format-version: 1.0\n// swevo-module: a\tb 1.0\n^~\
// swift-interface-format-version: 1.0\n// swevo-module: main 1.0\n^~\
// swift-interface-format-version: 1.0\n// swevo-module: Swift 1.0\n^~\
// swift-interface-format-version: 1.0\n// swevo-module: Int 1.0\n^~\
// swift-interface-format-version: 1.0\n// swevo-module: class 1.0\n^~\
// swift-interface-format-version: 1.0\n// swevo-module: open 1.0\n^";

// Numbers of releases.
const RELEASES: &str = "\
// swift-interface-format-version: 1.0\n// swevo-module: Lib 4294967295.4294967295\n^Lib 4294967295.4294967295~\
// swift-interface-format-version: 1.0\n// swevo-module: Lib 4294967296.0\n^~\
// swift-interface-format-version: 1.0\n// swevo-module: Lib 0.4294967296\n^~\
// swift-interface-format-version: 1.0\n// swevo-module: Lib 1.18446744073709551616\n^~\
// swift-interface-format-version: 1.0\n// swevo-module: Lib 01.0\n^~\
// swift-interface-format-version: 1.0\n// swevo-module: Lib 1.00\n^~\
// swift-interface-format-version: 1.0\n// swevo-module: Lib +1.0\n^~\
// swift-interface-format-version: 1.0\n// swevo-module: Lib 1.-0\n^~\
// swift-interface-format-version: 1.0\n// swevo-module: Lib 1\n^~\
// swift-interface-format-version: 1.0\n// swevo-module: Lib 1.\n^~\
// swift-interface-format-version: 1.0\n// swevo-module: Lib .0\n^~\
// swift-interface-format-version: 1.0\n// swevo-module: Lib 1.0.0\n^~\
// swift-interface-format-version: 1.0\n// swevo-module: Lib 1,0\n^~\
// swift-interface-format-version: 1.0\n// swevo-module: Lib 1_0.0\n^~\
// swift-interface-format-version: 1.0\n// swevo-module: Lib 0x1.0\n^";

// What the heading of a text says.
fn said(alloc: Global, text: &[u8]) -> Result<String, Fail> {
    let Some(heading) = heading(alloc, text)? else {
        return Ok(String::new(alloc));
    };
    let name = str::from_utf8(heading.name.as_slice()).unwrap_or("?");
    let release = heading.release;
    Ok(format!(in alloc; "{name} {}.{}", release.major, release.minor)?)
}

fn check_table(rt: &impl Abort, alloc: Global, table: &str) -> Result<(), Fail> {
    for row in table.split('~') {
        let text = row.split('^').next().unwrap_or("");
        let expected = row.split('^').nth(1).unwrap_or("");
        let found = said(alloc, text.as_bytes())?;
        assert_eq!(rt; found.as_str(), expected, "the heading of {text}");
    }
    Ok(())
}

#[test]
fn both_lines(rt: HostRuntime) -> Result<(), Fail> {
    check_table(&rt, rt.alloc(), LINES)
}

#[test]
fn names_of_modules(rt: HostRuntime) -> Result<(), Fail> {
    check_table(&rt, rt.alloc(), NAMES)
}

#[test]
fn numbers_of_releases(rt: HostRuntime) -> Result<(), Fail> {
    check_table(&rt, rt.alloc(), RELEASES)
}

// An overlong form of `a` is no UTF-8, and so no name.
#[test]
fn names_are_texts(rt: HostRuntime) -> Result<(), Fail> {
    let text = b"// swift-interface-format-version: 1.0\n// swevo-module: \xC1\xA1 1.0\n";
    let found = said(rt.alloc(), text)?;
    assert_eq!(rt; found.as_str(), "");
    Ok(())
}
