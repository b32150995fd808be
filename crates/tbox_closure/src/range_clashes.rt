ghost use Rattle.std.specs.Prelude.{◌≢◌, ◌↔◌, ℕ, List, IsTrue, MatchOption};
ghost use Rattle.tbox_closure.specs.Tables.{HaveTwoRanges, IsRange, IsRangeIn};

use crate::tables::Tables;
use dl_base::{Name, Term};

/// Whether two datatypes are ranges of what is above the attribute.
pub fn has_two_ranges(tables: &Tables, attr: Term) -> bool
    ensures { IsTrue result ↔ HaveTwoRanges tables.now.axioms attr }
{
    match first_range(tables, tables.ranges(), attr) {
        Some(datatype) => has_other_range(tables, attr, datatype),
        None => false,
    }
}

/// Whether another datatype is a range of something above the attribute.
pub fn has_other_range(tables: &Tables, attr: Term, datatype: &Name) -> bool
    ensures { IsTrue result ↔ ((e : List ℕ) × IsRange tables.now.axioms attr e × (datatype.now ≢ e)) }
{
    is_other_among(tables, tables.ranges(), attr, datatype)
}

/// The first of the ranges above the attribute.
fn first_range<'r>(tables: &Tables, ranges: &'r [(Term, Name)], attr: Term) -> Option<&'r Name>
    ensures { MatchOption result ((d : List ℕ) → ¬ IsRangeIn tables.now.axioms ranges.now attr d) (λ d. IsRangeIn tables.now.axioms ranges.now attr d.now) }
{
    for range in ranges {
        if tables.attr(attr, range.0) {
            return Some(&range.1);
        }
    }
    None
}

fn is_other_among(tables: &Tables, ranges: &[(Term, Name)], attr: Term, datatype: &Name) -> bool
    ensures { IsTrue result ↔ ((e : List ℕ) × IsRangeIn tables.now.axioms ranges.now attr e × (datatype.now ≢ e)) }
{
    for range in ranges {
        if tables.attr(attr, range.0) && !datatype.is(&range.1) {
            return true;
        }
    }
    false
}
