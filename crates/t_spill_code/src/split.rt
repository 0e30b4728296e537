// Which registers stay, and the six of the spilled program's own.
ghost use Rattle.std.specs.Prelude.{◌≡◌, ◌+◌, ◌<◌, ◌≤◌, ◌^◌};
ghost use Rattle.t_spill_rules.specs.Spill.{lows, frame_reg, slot_reg, first_reg, second_reg, made_reg, saved_reg};
ghost use Rattle.t_spill_rules.specs.Spill.{into as into_reg};

// No register of a text is greater.
const MOST: u64 = 9223372036854775807;

/// Registers up to `low` stay as they are, and the six behind them are the spilled program's own.
#[derive(Clone, Copy)]
pub struct Split {
    pub low: u64,
    pub ghost fits: { low + 6 < 2 ^ 64 },
}

impl Split {
    /// That of a program without registers above `k`.
    pub fn within(k: u64) -> Split
        requires { 8 ≤ k }
        ensures { result.low ≡ lows k }
    {
        let most = k.min(MOST);
        Split { low: most - 6 }
    }

    /// The register of the frame.
    pub fn frame(self) -> u64
        ensures { result ≡ frame_reg self.low }
    {
        self.low + 1
    }

    /// The register of the slots.
    pub fn slots(self) -> u64
        ensures { result ≡ slot_reg self.low }
    {
        self.low + 2
    }

    /// The register of first operands, and of results that go into a slot or into a new frame.
    pub fn first(self) -> u64
        ensures { result ≡ first_reg self.low }
    {
        self.low + 3
    }

    /// The register of second operands.
    pub fn second(self) -> u64
        ensures { result ≡ second_reg self.low }
    {
        self.low + 4
    }

    /// The register of a frame that is being made.
    pub fn made(self) -> u64
        ensures { result ≡ made_reg self.low }
    {
        self.low + 5
    }

    /// The register of the frame while a branch has another.
    pub fn saved(self) -> u64
        ensures { result ≡ saved_reg self.low }
    {
        self.low + 6
    }

    /// Where an instruction computes the word of a register.
    pub fn into(self, r: u64) -> u64
        ensures { result ≡ into_reg self.low r }
    {
        if self.low < r { self.first() } else { r }
    }
}
