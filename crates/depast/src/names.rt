// The new names: one underscore more than a name of the formula begins with, `p`, and a number.
ghost use Rattle.std.specs.Prelude.{◌≡◌, suc, ◌∷◌, ◌++◌, [], IfOk, string_bytes};
ghost use Rattle.depast.specs.Names.{new_name, underscores};

use std::alloc::{AllocError, Global};

/// How new names begin where the names of a formula begin with at most this number of underscores.
#[derive(Drop)]
pub struct NewNames {
    pub most: usize,
    prefix: String,
    ghost begins: { string_bytes prefix ≡ underscores (suc most) ++ 112 ∷ [] },
}

impl NewNames {
    pub fn new(alloc: Global, most: usize) -> Result<NewNames, AllocError>
        ensures { IfOk result (λ names. names.most ≡ most) }
    {
        let mut prefix = String::new(alloc);
        for _ in 0..most {
            prefix.push_str("_")?;
        }
        prefix.push_str("_p")?;
        Ok(NewNames { most, prefix })
    }

    /// The new name with a number.
    pub fn name(&self, alloc: Global, number: u32) -> Result<String, AllocError>
        ensures { IfOk result (λ name. string_bytes name ≡ new_name self.now.most number) }
    {
        let prefix = self.prefix.as_str();
        let name = format!(in alloc; "{prefix}{number}")?;
        Ok(name)
    }
}
