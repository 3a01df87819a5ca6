//! The text of `--version`.

/// The program's version, and the kit that it is proved with. The sources can't contain their own digest, so the
/// script `./bcpl` prints it after this text.
pub const VERSION: &str = "1.0\nproved with rattle-kit-13f logic dac8208d650f15bf";
