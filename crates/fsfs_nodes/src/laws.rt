//! Laws: what was written is read again.
ghost use Rattle.std.specs.Prelude.{◌≡◌, Ok};
ghost use Rattle.fsfs_nodes.specs.{Current.{current_bytes, current_of, CurrentFits}, declared.current.Current.Current};

/// Shows that the file `current` that was written is read again.
pub fn a_current_is_read_again()
    ensures { (current : Current) → CurrentFits current
        → current_of current.format (current_bytes current) ≡ Ok current }
{}
