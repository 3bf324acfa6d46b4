//! Which record types need finalization.

ghost use Rattle.std.specs.Prelude.{◌≡◌};
ghost use Rattle.ctl_groups.specs.Needs.{needs_finalization};

/// Whether the objects of a record type need finalization: some part of them is controlled (RM
/// 7.6(9.2)).
#[derive(Clone, Copy)]
pub enum Need {
    Finalization,
    Nothing,
}

/// Answers whether a record type needs finalization; one beyond these needs none.
pub fn needs_finalization(needs: &[Need], record_type: usize) -> bool
    ensures { result ≡ needs_finalization needs.now record_type }
{
    match needs.get(record_type) {
        Some(Need::Finalization) => true,
        Some(Need::Nothing) | None => false,
    }
}
