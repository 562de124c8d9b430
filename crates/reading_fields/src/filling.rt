// Slots that nothing was read into.
ghost use Rattle.std.specs.Prelude.{◌≡◌, ◌-◌, ◌≤◌, length, replicate};
ghost use Rattle.writing.specs.Notify.{placed};

// Puts 0 into the slots from `from` up to `end`.
pub fn fill(slots: &mut [u64], from: usize, end: usize)
    requires { (from ≤ end) × (end ≤ length slots.old) }
    ensures { slots.new ≡ placed slots.old from (replicate (end - from) 0) }
{
    slots[from..end].fill(0);
}
