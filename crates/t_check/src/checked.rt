// Programs that the typing rules accept.
ghost use Rattle.t_terms.specs.Read.{parts};
ghost use Rattle.t_rules.specs.Rules.{Accepted};

use t_terms::TProgram;

/// A program that the typing rules accept.
#[derive(Drop)]
pub struct Checked {
    pub(crate) program: TProgram,
    pub ghost accepted: { ∥ Accepted (parts program.blocks.items program.heap.items) ∥₁ },
}

impl Checked {
    ghost use Rattle.std.specs.Prelude.{◌≡◌};
    ghost use Rattle.t_terms.specs.ReadProgram.{program};
    ghost use Rattle.t_rules.specs.Rules.{Accepted};
    ghost use Rattle.t_check.specs.Checked.{checked_program};

    /// The program.
    pub fn program(&self) -> &TProgram
        ensures same { result.now ≡ checked_program self.now }
        ensures accepted { ∥ Accepted (program result.now) ∥₁ }
    {
        &self.program
    }

    /// The program, as it was put in.
    pub fn into_program(self) -> TProgram
        ensures same { result ≡ checked_program self }
        ensures accepted { ∥ Accepted (program result) ∥₁ }
    {
        self.program
    }
}
