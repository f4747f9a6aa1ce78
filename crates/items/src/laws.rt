// Laws of the definitions, each on a function that does nothing.
ghost use Rattle.std.specs.Prelude.{◌≡◌, ◌⊎◌, ◌++◌, List, ℕ};
ghost use Rattle.items.specs.{Values.{ItemValue, limits, IsWithin}, Stream.{IsItem, IsFaulty, IsDefect}, Print.printed, Written.HasWords, Unread.Unread};
ghost use Rattle.items.specs.{Reading.{Takes, HasNone, IsFaultOf}, declared.scan.Defect.Defect, declared.reader.ItemFault.ItemFault};
ghost use Rattle.items.specs.declared.reader.ItemFault.TheVariants.{NoMemory};

/// Shows that no spelling begins another, and none spells two items.
pub fn one_reading()
    ensures { (t u : ItemValue) (a b x y : List ℕ) → IsItem limits t a → IsItem limits u b
        → a ++ x ≡ b ++ y → (t ≡ u) × (x ≡ y) }
{}

/// Shows that what is written for an item within the limits is its spelling.
pub fn written_is_spelled()
    ensures { (t : ItemValue) → HasWords t → IsWithin limits 0 t → IsItem limits t (printed t) }
{}

/// Shows that a stream is faulty at one place at most, and wrong in one way there.
pub fn one_fault()
    ensures place { (n k : ℕ) (stream : List ℕ) → IsFaulty n stream → IsFaulty k stream → n ≡ k }
    ensures some_kind { (n : ℕ) (stream : List ℕ) → IsFaulty n stream
        → (d : Defect) × IsDefect d n stream }
    ensures one_kind { (n : ℕ) (stream : List ℕ) (d e : Defect) → IsFaulty n stream
        → IsDefect d n stream → IsDefect e n stream → d ≡ e }
{}

/// Shows that, whatever follows, a faulty stream stays faulty there and in that way.
pub fn fault_stays()
    ensures { (n : ℕ) (stream added : List ℕ) (d : Defect) → IsFaulty n stream
        → IsDefect d n stream → IsFaulty n (stream ++ added) × IsDefect d n (stream ++ added) }
{}

/// Shows that a reader at a fault answers that fault and nothing else, except when out of memory,
/// whatever it is fed from then on.
pub fn fault_is_answered_again()
    ensures again { (old : Unread) (added : List ℕ) (e : ItemFault) → IsFaultOf old e
        → IsFaultOf (record old { rest = old.rest ++ added }) e }
    ensures one { (old : Unread) (e f : ItemFault) → IsFaultOf old e → IsFaultOf old f
        → (e ≡ f) ⊎ (e ≡ NoMemory) ⊎ (f ≡ NoMemory) }
    ensures no_item { (old new : Unread) (t : ItemValue) (e : ItemFault) → Takes old t new
        → IsFaultOf old e → e ≡ NoMemory }
    ensures not_none { (old : Unread) (e : ItemFault) → HasNone old → IsFaultOf old e
        → e ≡ NoMemory }
{}
