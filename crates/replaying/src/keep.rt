// Makes room in the window: what is not used yet comes to its front.
ghost use Rattle.std.specs.Prelude.{◌≡◌, ◌-◌, ◌≤◌, length, take, drop};

// Moves the octets from `at` up to `len` to the front, and returns how many they are.
pub fn keep(window: &mut [u8], at: usize, len: usize) -> usize
    requires { (at ≤ len) × (len ≤ length window.old) }
    ensures value { result ≡ len - at }
    ensures window_after { take (len - at) window.new ≡ take (len - at) (drop at window.old) }
{
    if at > 0 {
        window.copy_within(at..len, 0);
    }
    len - at
}
