// Lists that are lent: an element stored at a place. Its laws are of lists and of what a test chooses, for the proofs of
// the crates above.
#![tactic(auto)]

ghost use Rattle.std.specs.Prelude.{◌≡◌, set};

// Stores an element at a place; nothing past the end.
pub fn store<T: Copy>(list: &mut [T], place: usize, new: T)
    ensures { list.new ≡ set list.old place new }
{
    if place < list.len() {
        list[place] = new;
    }
}
