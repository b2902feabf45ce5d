// Refusal 5: an opener met while 64 quotes are open. The depth is counted over the whole text before anything is written, with the losses.
ghost use Rattle.std.specs.Prelude.{◌≡◌, ◌+◌, ◌-◌, ◌≤◌, ◌<◌};
ghost use Rattle.text.specs.Bounds.{deep_most};

use text::bounds::DEEP_MOST;

// How many quotes are open behind an opener. One more than may be open stays so: a number is compared once, at the end, where an Option would be asked at each tag.
pub fn open_more(open: usize) -> usize
    requires { «open» ≤ deep_most + 1 }
    ensures { («open» ≤ deep_most → result ≡ «open» + 1) × ((deep_most < «open» → result ≡ «open») × (result ≤ deep_most + 1)) }
{
    (open + 1).min(DEEP_MOST + 1)
}

// How many quotes are open behind a closer, likewise.
pub fn open_less(open: usize) -> usize
    requires { «open» ≤ deep_most + 1 }
    ensures { («open» ≤ deep_most → result ≡ «open» - 1) × ((deep_most < «open» → result ≡ «open») × (result ≤ deep_most + 1)) }
{
    if DEEP_MOST < open {
        return open;
    }
    open.saturating_sub(1)
}
