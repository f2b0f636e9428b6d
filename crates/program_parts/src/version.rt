//! The version of the programs.

/// The version of the programs, and the toolchain that proved them.
pub const VERSION: &str = "1.0.0 (rattle-kit-13f logic dac8208d650f15bf)";
