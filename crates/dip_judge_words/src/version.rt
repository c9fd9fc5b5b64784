//! The program's version.

/// The version of the program, as `dip_judge --version` and the package name it: major, minor and
/// patch, as Semantic Versioning has them.
pub const VERSION: &str = "0.1.0";
