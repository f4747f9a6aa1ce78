// The fault of a reader for what is wrong at a byte.
ghost use Rattle.std.specs.Prelude.{◌≡◌};
ghost use Rattle.items.specs.Faults.{fault_of};

use crate::reader::ItemFault;
use crate::scan::Defect;

/// Makes the reader's fault of a defect, which carries the place of the wrong byte.
pub fn fault_at(defect: Defect, place: u64) -> ItemFault
    ensures { result ≡ fault_of defect place }
{
    match defect {
        Defect::Malformed => ItemFault::Malformed(place),
        Defect::TooDeep => ItemFault::TooDeep(place),
        Defect::StringTooLong => ItemFault::StringTooLong(place),
        Defect::NumberTooLarge => ItemFault::NumberTooLarge(place),
    }
}
