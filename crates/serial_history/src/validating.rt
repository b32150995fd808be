ghost use Rattle.std.specs.Prelude.{◌≡◌, ◌↔◌, ◌≤◌, All, IfSome, None, length, map};
ghost use Rattle.std.specs.Arc.{arc_value};
ghost use Rattle.dl_base.specs.Staleness.{IsFirstMet, IsReplacing, IsStale};
ghost use Rattle.dl_base.specs.Transactions.{IsWell};
ghost use Rattle.serial_history.specs.Stopping.{AreSound, AreSoundAfter, IsFirstMeeting, IsFirstStop, LetsPass, NoneMeets};

use conflict_rules::Conflicts;
use dl_base::{Changed, Entry};
use entail_guards::Entailers;
use read_patterns::{Met, Parts, Recorded};
use std::sync::Arc;

/// What stands in the way of a commit: the first entry after the base that replaces the ontology or changed a fact that meets a request, then the
/// first such fact, then the first such request. `None` exactly where the transaction isn't stale. The first two arguments are those of the
/// ontology in force at the base. It takes no memory.
pub fn validate(
    conflicts: &Conflicts,
    entailers: &Entailers,
    parts: &Parts,
    entries: &[Arc<Entry>],
) -> Option<Met>
    requires same { entailers.now ≡ conflicts.now }
    requires base { parts.now.base ≤ length entries.now }
    requires well { All (IsWell conflicts.now.axioms) parts.now.recorded }
    requires sound { AreSoundAfter conflicts.now.axioms (map arc_value entries.now) parts.now.base }
    ensures first { IfSome result (λ met. IsFirstMet conflicts.now.axioms (map arc_value entries.now) parts.now.base parts.now.recorded met.entry met.place met.request) }
    ensures fresh { (result ≡ None) ↔ ¬ IsStale conflicts.now.axioms (map arc_value entries.now) parts.now.base parts.now.recorded }
{
    if parts.recorded.len() == 0 {
        return None;
    }
    for place in parts.base as usize..entries.len() {
        if let Some(at) = first_stop(conflicts, entailers, &parts.recorded, &entries[place]) {
            return Some(Met {
                entry: place as u64 + 1,
                place: at.0,
                request: at.1,
            });
        }
    }
    None
}

/// What of the entry stands in the way: the place of the changed fact, and that of the request. Both are 0 where the entry replaces the ontology.
fn first_stop(
    conflicts: &Conflicts,
    entailers: &Entailers,
    recorded: &Recorded,
    entry: &Entry,
) -> Option<(usize, usize)>
    requires same { entailers.now ≡ conflicts.now }
    requires well { All (IsWell conflicts.now.axioms) recorded.now }
    requires sound { ¬ IsReplacing entry.now → AreSound conflicts.now.axioms entry.now.changed }
    ensures first { IfSome result (λ at. IsFirstStop conflicts.now.axioms recorded.now entry.now at.0 at.1) }
    ensures none { result ≡ None → LetsPass conflicts.now.axioms recorded.now entry.now }
{
    if let Some(_) = &entry.replaced {
        return Some((0, 0));
    }
    first_met(conflicts, entailers, recorded, entry.changed.as_slice())
}

/// The first of the changed facts that meets a request, and the first such request.
fn first_met(
    conflicts: &Conflicts,
    entailers: &Entailers,
    recorded: &Recorded,
    changed: &[Changed],
) -> Option<(usize, usize)>
    requires same { entailers.now ≡ conflicts.now }
    requires well { All (IsWell conflicts.now.axioms) recorded.now }
    requires sound { AreSound conflicts.now.axioms changed.now }
    ensures first { IfSome result (λ at. IsFirstMeeting conflicts.now.axioms recorded.now changed.now at.0 at.1) }
    ensures none { result ≡ None → NoneMeets conflicts.now.axioms recorded.now changed.now }
{
    for place in 0..changed.len() {
        if let Some(request) = recorded.meets(conflicts, entailers, &changed[place].fact) {
            return Some((place, request));
        }
    }
    None
}
