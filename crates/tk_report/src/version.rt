//! The version of the program.

/// The version of the program, which is that of the crates for programs in Rust.
pub const VERSION: &str = "0.1.0";
