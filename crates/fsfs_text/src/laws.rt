//! Laws: what was written is read again.
ghost use Rattle.std.specs.Prelude.{◌≡◌, Some};
ghost use Rattle.fsfs_text.specs.{Formats.{FormatFits, format_bytes, format_of}, declared.format.Format.Format};

/// Shows that the file `format` that was written is read again.
pub fn a_format_is_read_again()
    ensures { (format : Format) → FormatFits format
        → format_of (format_bytes format) ≡ Some format }
{}
