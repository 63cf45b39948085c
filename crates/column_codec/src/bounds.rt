ghost use Rattle.std.specs.Prelude.{◌≡◌, ◌++◌, ◌∷◌, [], length, List};
ghost use Rattle.adg_base.specs.declared.value.Value.{Value as Datum};
ghost use Rattle.adg_base.specs.Values.{shown};
ghost use Rattle.column_codec.specs.Bounds.{AreBounds, IsFirstPlace, HasFound, better_of};

use adg_base::value::Value;
use adg_base::value_ref::ValueRef;
use std::cmp::Ordering;

/// Where the smallest and the largest value of a column stand first. Null counts for neither.
#[derive(Clone, Copy, Debug, PartialEq, Eq)]
pub struct Bounds {
    pub least: usize,
    pub greatest: usize,
}

/// Which value of a list comes first.
#[derive(Clone, Copy, Debug)]
pub enum Side {
    Least,
    Greatest,
}

/// A value and its place.
#[derive(Clone, Copy, Debug)]
pub struct Found<'a> {
    place: usize,
    value: ValueRef<'a>,
}

/// The bounds of values, none where no value is there.
pub fn bounds_of(values: &[Value]) -> Option<Bounds>
    ensures { AreBounds values.now result }
{
    match (
        first_place(Side::Least, values),
        first_place(Side::Greatest, values),
    ) {
        (Some(least), Some(greatest)) => Some(Bounds { least, greatest }),
        _ => None,
    }
}

/// The place of the value that comes first.
fn first_place(side: Side, values: &[Value]) -> Option<usize>
    ensures { IsFirstPlace (better_of side) values.now result }
{
    let mut best = None;
    for place in 0..values.len() {
        let value = ValueRef::of(&values[place]);
        best = side.first_of(best, Found { place, value });
    }
    match best {
        Some(found) => Some(found.place),
        None => None,
    }
}

impl Side {
    /// Whether a value that compares so with another comes before it.
    fn beats(self, order: Ordering) -> bool
        ensures { result ≡ better_of self order }
    {
        match self {
            Side::Least => order.is_lt(),
            Side::Greatest => order.is_gt(),
        }
    }

    /// The first so far after one value more.
    #[tactic(auto, using(crate::proofs::Firsts::beats, crate::proofs::Firsts::stays, crate::proofs::Firsts::opens, crate::proofs::Firsts::none))]
    fn first_of<'a>(self, best: Option<Found<'a>>, found: Found<'a>) -> Option<Found<'a>>
        ensures { (values : List Datum) → HasFound (better_of self) values best.entry → found.entry.place ≡ length values → HasFound (better_of self) (values ++ shown found.entry.value ∷ []) result }
    {
        match (best, found.value) {
            (_, ValueRef::Null) => best,
            (None, ValueRef::Int(_) | ValueRef::Text(_)) => Some(found),
            (Some(first), ValueRef::Int(_) | ValueRef::Text(_)) => {
                if self.beats(found.value.compare(first.value)) {
                    Some(found)
                } else {
                    best
                }
            }
        }
    }
}
