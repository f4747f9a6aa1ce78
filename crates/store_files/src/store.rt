//! The files of a repository, by their names.
ghost use Rattle.std.specs.Prelude.{◌≡◌, ◌⊎◌, ◌≤◌, ◌<◌, ◌↔◌, ℕ, Some, IfOk, OnOk, IsErrOf};
ghost use Rattle.store_files.specs.{Faults.{IsRefused, as_told}, Folders.{Folder, IsSame, SameBut, Scribbled, Swapped, bytes_of}};
ghost use Rattle.store_files.specs.Moments.{Elapses, HasCause, last_count};

use crate::fault::{ReplaceFault, StoreFault};
use crate::name::FileName;
use std::alloc::Global;

/// Files by their names. While a file is written it may hold any bytes; where one is replaced, it holds
/// the old bytes or the new. A stop may come before a call, within it or behind it.
pub trait Store: Drop {
    /// It gives back what was written. A read may show that it does not.
    ghost is_honest: { Self → Type 0 };

    /// What a read gives.
    ghost holds: { Self → Folder };

    /// What a stop leaves now.
    ghost may_leave: { Self → Folder → Type 0 };

    /// The moment, which does not fall.
    ghost moment: { Self → ℕ };

    /// What a stop may have left at some moment since that one.
    ghost left_since: { Self → ℕ → Folder → Type 0 };

    /// How often the device has failed.
    ghost failed: { Self → ℕ };

    /// How often it has failed in a replacement, so that nobody knows which bytes stand.
    ghost in_doubt: { Self → ℕ };

    /// Reads the bytes of a file, if it exists.
    fn read(&mut self, alloc: Global, name: FileName) -> Result<Option<Vec<u8>>, StoreFault>
        ensures honest { is_honest self.new → is_honest self.old }
        ensures found { is_honest self.new → IfOk result (λ found. bytes_of found
            ≡ holds self.old name) }
        ensures same { is_honest self.old → IsSame (holds self.old) (holds self.new) }
        ensures stop { is_honest self.old → (f : Folder) → may_leave self.new f → may_leave self.old f }
        ensures time { is_honest self.old → Elapses (moment self.old) (moment self.new)
            (left_since self.old) (left_since self.new) (may_leave self.old) }
        ensures doubt { in_doubt self.new ≡ in_doubt self.old }
        ensures cause { HasCause (failed self.old) (failed self.new) result };

    /// Writes a file, in place of one that is there.
    fn write_new(&mut self, name: FileName, bytes: &[u8]) -> Result<(), StoreFault>
        ensures honest { is_honest self.old ↔ is_honest self.new }
        ensures others { is_honest self.old → SameBut name (holds self.old) (holds self.new) }
        ensures written { is_honest self.old → OnOk result (holds self.new name ≡ Some bytes.now) }
        ensures stop { is_honest self.old → (f : Folder) → may_leave self.new f
            → Scribbled (may_leave self.old) name f }
        ensures kept { is_honest self.old → OnOk result ((f : Folder) → may_leave self.new f
            → f name ≡ Some bytes.now) }
        ensures time { is_honest self.old → Elapses (moment self.old) (moment self.new)
            (left_since self.old) (left_since self.new) (Scribbled (may_leave self.old) name) }
        ensures doubt { in_doubt self.new ≡ in_doubt self.old }
        ensures cause { HasCause (failed self.old) (failed self.new) result };

    /// Puts other bytes in the place of a file's, at once. Unless it is in doubt, one that fails has changed nothing.
    fn replace(&mut self, name: FileName, bytes: &[u8]) -> Result<(), ReplaceFault>
        ensures honest { is_honest self.old ↔ is_honest self.new }
        ensures others { is_honest self.old → SameBut name (holds self.old) (holds self.new) }
        ensures written { is_honest self.old → OnOk result (holds self.new name ≡ Some bytes.now) }
        ensures refused { is_honest self.old → IsRefused result
            → IsSame (holds self.old) (holds self.new) }
        ensures either { is_honest self.old → (holds self.new name ≡ holds self.old name)
            ⊎ (holds self.new name ≡ Some bytes.now) }
        ensures stop { is_honest self.old → (f : Folder) → may_leave self.new f
            → Swapped (may_leave self.old) name bytes.now f }
        ensures kept { is_honest self.old → OnOk result ((f : Folder) → may_leave self.new f
            → f name ≡ Some bytes.now) }
        ensures unchanged { is_honest self.old → IsRefused result
            → (f : Folder) → may_leave self.new f → may_leave self.old f }
        ensures time { is_honest self.old → Elapses (moment self.old) (moment self.new)
            (left_since self.old) (left_since self.new)
            (Swapped (may_leave self.old) name bytes.now) }
        ensures doubt { (IsErrOf result ReplaceFault.InDoubt
            ↔ in_doubt self.old < in_doubt self.new) × (in_doubt self.old ≤ in_doubt self.new) }
        ensures cause { HasCause (failed self.old) (failed self.new) (as_told result) };

    /// Says how often the device has failed, up to the greatest number.
    fn failures(&self) -> u64
        ensures { result ≡ failed self.now };

    /// This moment is one of those since an earlier one.
    ghost counts_now: { (s : Self) (t : ℕ) (f : Folder) → is_honest s → t ≤ moment s
        → may_leave s f → left_since s t f };

    /// Since this moment there is no other.
    ghost only_now: { (s : Self) (f : Folder) → is_honest s → left_since s (moment s) f
        → may_leave s f };

    /// The count of failures stays at its greatest value.
    ghost is_count: { (s : Self) → failed s ≤ last_count };
}
