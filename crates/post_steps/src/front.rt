// Moving numbers to the front of a slice.
ghost use Rattle.std.specs.Prelude.{◌≡◌, ◌+◌, ◌≤◌, length, take, drop};

// Moves n numbers from place a on to the front.
pub fn move_front(numbers: &mut [u32], a: usize, n: usize)
    requires { a + n ≤ length numbers.old }
    ensures { take n numbers.new ≡ take n (drop a numbers.old) }
{
    numbers.copy_within(a..a + n, 0);
}
