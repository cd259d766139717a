//! Why options aren't read.
ghost use Rattle.std.specs.Prelude.{◌≡◌};
ghost use Rattle.pi_label.specs.declared.fault.OptFault.TheVariants.{Memory};

use pi_constraints::Ref;
use std::alloc::AllocError;

/// Why there are no options.
#[derive(Clone, Copy)]
pub enum OptFault {
    /// The term has more than 16,777,216 cells: `term_too_large`.
    TooLarge,
    /// This term is no proper list, or no word that may stand where it does: `bad_option(T)`.
    BadOption(Ref),
    /// Memory ran out.
    Memory,
}

impl From<AllocError> for OptFault {
    ghost from_gives = { λ _ e. e ≡ Memory };

    fn from(_error: AllocError) -> OptFault {
        OptFault::Memory
    }
}
