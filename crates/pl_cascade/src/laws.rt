//! Laws of the cascade, for all plates.
ghost use Rattle.std.specs.Prelude.{◌≡◌, ◌≢◌, ℕ, ◌<◌, Bool, true, false};
ghost use Rattle.pl_model.specs.Contents.{Contents};
ghost use Rattle.pl_cascade.specs.Slots.{is_present, needs_slot};
ghost use Rattle.pl_cascade.specs.Cascade.{IsClosure, closure_of, takes};
ghost use Rattle.pl_cascade.specs.Direct.{is_direct};
ghost use Rattle.pl_cascade.specs.Touched.{is_touched};

/// A law: two rounds give the least set that has all slots of a set and all that its members take.
pub fn two_rounds_are_the_closure()
    ensures { (set : ℕ → Bool) → IsClosure set (closure_of set) }
{}

/// A law: the slots that differ directly are touched, and what a touched slot takes. So where a slot is not touched, no slot
/// that takes it differs.
pub fn what_is_touched_takes()
    ensures direct { (a b : Contents) (slot : ℕ) → slot < 100 → is_direct a b slot ≡ true → is_touched a b slot ≡ true }
    ensures taken { (a b : Contents) (slot taken : ℕ) → is_touched a b slot ≡ true → takes slot taken ≡ true → is_touched a b taken ≡ true }
{}

/// A law: between equal plates nothing is touched, and a slot that is present in one plate alone is.
pub fn touched_slots_follow_the_plates()
    ensures same { (a : Contents) (slot : ℕ) → is_touched a a slot ≡ false }
    ensures changed { (a b : Contents) (slot : ℕ) → is_present a slot ≢ is_present b slot → is_touched a b slot ≡ true }
{}

/// A law: what needs a touched slot is touched, and a slot that is present and not touched has the same needs in both plates.
pub fn needs_of_untouched_slots_stay()
    ensures up { (a b : Contents) (slot need : ℕ) → needs_slot b slot need ≡ true → is_touched a b need ≡ true → is_touched a b slot ≡ true }
    ensures kept { (a b : Contents) (slot : ℕ) → is_present a slot ≡ true → is_touched a b slot ≡ false → (need : ℕ) → needs_slot a slot need ≡ needs_slot b slot need }
{}

/// A law: slots have the numbers 0 to 99, the needs of a present slot are present, and each need has a smaller number. Slot 99 is
/// present, and needs all others that are.
pub fn needs_are_present_and_earlier()
    ensures below { (plate : Contents) (slot : ℕ) → is_present plate slot ≡ true → slot < 100 }
    ensures present { (plate : Contents) (slot need : ℕ) → is_present plate slot ≡ true → needs_slot plate slot need ≡ true → is_present plate need ≡ true }
    ensures earlier { (plate : Contents) (slot need : ℕ) → needs_slot plate slot need ≡ true → need < slot }
    ensures last { (plate : Contents) → is_present plate 99 ≡ true }
    ensures all { (plate : Contents) (slot : ℕ) → is_present plate slot ≡ true → slot < 99 → needs_slot plate 99 slot ≡ true }
{}
