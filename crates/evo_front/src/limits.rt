/// The most bytes of a source file.
pub const FILE_LIMIT: usize = 1 << 20;

/// The most bytes of an interface's text.
pub const INTERFACE_LIMIT: usize = 1 << 24;

/// The most declarations of a module.
pub const MOST_DECLARATIONS: usize = 4096;
