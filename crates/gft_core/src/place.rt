//! Places in source files.

/// Where something stands in a source: `file` counts the loaded files from 0, `line` and `col`
/// count from 1, and `col` counts characters, not bytes.
#[derive(Clone, Copy, Debug, PartialEq, Eq)]
pub struct Place {
    pub file: u32,
    pub line: u32,
    pub col: u32,
}
