// From a place of the code to its block.
ghost use Rattle.std.specs.Prelude.{◌<◌, ◌≤◌, length};
ghost use Rattle.t_machine.specs.Placing.{begin_at, IsBlockAt};

// The block of a place, found by halving.
pub(crate) fn block_at(entries: &[usize], at: usize) -> usize
    requires some { 0 < length entries.now }
    requires first { begin_at entries.now 0 ≤ at }
    ensures { IsBlockAt entries.now at result }
{
    let mut low = 0;
    let mut high = entries.len();
    while high - low > 1 {
        let middle = low + (high - low) / 2;
        if entries[middle] <= at {
            low = middle;
        } else {
            high = middle;
        }
    }
    low
}
