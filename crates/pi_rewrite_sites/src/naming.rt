//! What the helpers of loops are called.
ghost use Rattle.std.specs.Prelude.{◌≡◌, IfOk};
ghost use Rattle.pi_rewrite_sites.specs.OwnNames.{own_name};

use pi_terms::Text;
use std::alloc::{AllocError, Global};

/// Makes the names of helpers: each is what all begin with, and then the digits of the helper's number.
#[derive(Drop)]
pub struct Naming {
    pub prefix: Text,
}

impl Naming {
    /// The name of the helper with this number. Errors: no memory.
    pub fn name_of(&self, alloc: Global, number: u64) -> Result<Text, AllocError>
        ensures { IfOk result (λ made. made ≡ own_name self.now.prefix number) }
    {
        let prefix = self.prefix.as_str();
        let name = format!(in alloc; "{prefix}{number}")?;
        let made = Text::from_string(alloc, name)?;
        Ok(made)
    }
}
