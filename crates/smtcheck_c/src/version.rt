//! The version of the library. This file reads nothing.

ghost use Rattle.std.specs.Prelude.{◌≡◌, length};
ghost use Rattle.smtcheck_c.specs.Told.{IsPut};

use crate::text::put_text;

/// The version of the library and the kit that proves it, as `smtcheck --version` has them.
pub const VERSION: &str = "0.13.1 (rattle-kit-13f logic dac8208d650f15bf)";

/// Writes the version of the library, and of the toolchain that proved it, into `text`.
///
/// It returns the number of bytes of `VERSION`. `text` begins with them if it has room for all of them, and otherwise
/// stays as it was.
#[unsafe(no_mangle)]
pub extern "C" fn smtcheck_version(text: &mut [u8]) -> usize
    ensures wanted { result ≡ length VERSION.now }
    ensures put { IsPut VERSION.now text.old text.new }
{
    put_text(VERSION.as_bytes(), text)
}
