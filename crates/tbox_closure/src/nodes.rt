ghost use Rattle.std.specs.Prelude.{◌≡◌};
ghost use Rattle.dl_laws.specs.Edges as edge;
ghost use Rattle.dl_base.specs.Derivation as derivation;

use dl_base::{Basic, RoleSide};

/// The number of a concept.
pub fn concept_number(concept: Basic) -> usize
    ensures { result ≡ edge.concept_node concept }
{
    match concept {
        Basic::Class(t) => 4 * t.0 as usize,
        Basic::Exists(RoleSide::Direct(t)) => 4 * t.0 as usize + 1,
        Basic::Exists(RoleSide::Inverse(t)) => 4 * t.0 as usize + 2,
        Basic::Domain(t) => 4 * t.0 as usize + 3,
    }
}

/// The number of a concept where both sides of a role count as one.
pub fn merged_number(concept: Basic) -> usize
    ensures { result ≡ edge.merged_node concept }
{
    match concept {
        Basic::Class(t) => 4 * t.0 as usize,
        Basic::Exists(RoleSide::Direct(t)) => 4 * t.0 as usize + 1,
        Basic::Exists(RoleSide::Inverse(t)) => 4 * t.0 as usize + 1,
        Basic::Domain(t) => 4 * t.0 as usize + 3,
    }
}

/// The number of a role.
pub fn role_number(role: RoleSide) -> usize
    ensures { result ≡ edge.role_node role }
{
    match role {
        RoleSide::Direct(t) => 2 * t.0 as usize,
        RoleSide::Inverse(t) => 2 * t.0 as usize + 1,
    }
}

/// The same role from its other end.
pub fn turned(role: RoleSide) -> RoleSide
    ensures { result ≡ derivation.inverse role }
{
    match role {
        RoleSide::Direct(t) => RoleSide::Inverse(t),
        RoleSide::Inverse(t) => RoleSide::Direct(t),
    }
}
