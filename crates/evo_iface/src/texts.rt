//! The texts between the names and the terms of an interface.

/// What stands before the module's name.
pub const BEFORE_MODULE: &[u8] = b"// swift-interface-format-version: 1.0\n// swevo-module: ";

/// What stands behind the module's name.
pub const BEHIND_MODULE: &[u8] = b" 1.0\nimport Swift\n";

/// What stands before the name of a function whose body is not shown.
pub const BEFORE_NAME: &[u8] = b"public func ";

/// What stands behind the name of a function whose body is not shown.
pub const BEHIND_NAME: &[u8] = b"() -> Swift.Int\n";

/// What stands before the name of an inlinable function.
pub const BEFORE_INLINABLE: &[u8] = b"@inlinable public func ";

/// What stands behind the name of an inlinable function, before its body's term.
pub const BEFORE_TERM: &[u8] = b"() -> Swift.Int {\n  return ";

/// What stands behind a body's term.
pub const BEHIND_TERM: &[u8] = b"\n}\n";

/// What stands behind the name of a function that is called.
pub const BEHIND_CALL: &[u8] = b"()";
