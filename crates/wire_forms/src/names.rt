//! Tables of names.
ghost use Rattle.std.specs.Prelude.{◌≡◌, map};
ghost use Rattle.wire_forms.specs.Names.{named};

/// Finds what has this name in a table of names.
pub fn named<T: Copy>(table: &[(&[u8], T)], name: &[u8]) -> Option<T>
    ensures { result ≡ named (map (λ row. (row.0.now, row.1)) table.now) name.now }
{
    for row in table {
        if name == row.0 {
            return Some(row.1);
        }
    }
    None
}
