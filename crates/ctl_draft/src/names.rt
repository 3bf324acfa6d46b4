//! Names that are found at once.

ghost use Rattle.std.specs.Prelude.{◌≡◌, ◌++◌, ◌∷◌, [], IfOk, OnOk};
ghost use Rattle.ctl_draft.specs.Names as spec;

use ctl_tree::text::Text;
use indexmap::IndexSet;
use std::alloc::{AllocError, Global};
use std::marker::Model;

/// Names, each behind those that came before it.
#[derive(Drop)]
pub struct Names {
    names: Vec<Text>,
    /// the names in lower case
    keys: IndexSet<Vec<u8>>,
}

impl Model for Names {
    ghost use Rattle.std.specs.Prelude.{List, ℕ};
    ghost use Rattle.ctl_draft.specs.Names.{IsKeyed, has_key};

    ghost Value = { List (List ℕ) };

    ghost view = { λ t. t.names.items };

    ghost invariant = { λ t. IsKeyed t.names.items (has_key t.keys) };
}

impl Names {
    /// Makes a list of no names.
    pub fn new(alloc: Global) -> Names
        ensures { result ≡ [] }
    {
        Names {
            names: Vec::new(alloc),
            keys: IndexSet::new(alloc),
        }
    }

    /// Adds a name, and tells whether it was among them: case does not count (RM 2.3).
    pub fn add(&mut self, alloc: Global, name: &Text) -> Result<bool, AllocError>
        ensures among { IfOk result (λ is_among. is_among ≡ spec.is_name_among name.now self.old) }
        ensures added { OnOk result (self.new ≡ self.old ++ name.now ∷ []) }
    {
        let copy = Text::from_slice(alloc, name.as_bytes())?;
        let key = name.as_bytes().to_ascii_lowercase(alloc)?;
        self.names.reserve(1)?;
        let is_new = self.keys.insert(key)?;
        self.names.push_reserved(copy);
        Ok(!is_new)
    }
}
