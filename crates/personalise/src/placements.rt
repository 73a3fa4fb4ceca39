// The placements of a layout: two bytes each, the record's number and the object's.
ghost use Rattle.std.specs.Prelude.{◌≡◌};
ghost use Rattle.std.specs.Iterator.{YieldsFirst, item_count};
ghost use Rattle.basics.specs.Number.{between};
ghost use Rattle.personalise.specs.Placements.{placements_in, count_placements_where, any_placement, places_object_number, puts_object_into};
ghost use Rattle.personalise.specs.Records.{is_out_of_range_placement_into as strays_from};
ghost use Rattle.personalise.specs.Inner.{record_has_out_of_range_placement};

use crate::Placement;

// The placements in some bytes, one after another; a byte past the end reads as 0.
#[derive(Drop)]
struct Placements<'a>(&'a [u8]);

impl<'a> Iterator for Placements<'a> {
    type Item = Placement;

    ghost next_gives = { YieldsFirst (λ s. placements_in s.0.now) };

    ghost remaining = { item_count (λ s. placements_in s.0.now) };

    fn next(&mut self) -> Option<Placement> {
        let (into, behind) = self.0.split_first()?;
        match behind.split_first() {
            Some((object, rest)) => {
                self.0 = rest;
                Some(Placement {
                    into: *into,
                    object: *object,
                })
            }
            None => {
                self.0 = behind;
                Some(Placement {
                    into: *into,
                    object: 0,
                })
            }
        }
    }
}

// How many placements name an object.
pub(crate) fn count_named(placements: &[u8], object: usize) -> usize
    ensures { result ≡ count_placements_where (places_object_number object) (placements_in placements.now) }
{
    Placements(placements)
        .filter(|p| usize::from(p.object) == object)
        .count()
}

// Whether some placement puts an object into a record.
pub(crate) fn is_placed(placements: &[u8], into: usize, object: usize) -> bool
    ensures { result ≡ any_placement (puts_object_into into object) (placements_in placements.now) }
{
    Placements(placements).any(|p| is_of(p, into, object))
}

// Whether some placement names a record that is none of `records`, or with it an object that is none of `objects`.
pub(crate) fn is_misplaced(placements: &[u8], into: usize, records: usize, objects: usize) -> bool
    ensures { result ≡ record_has_out_of_range_placement (placements_in placements.now) records objects into }
{
    Placements(placements).any(|p| strays(p, into, records, objects))
}

// Whether a placement puts an object into a record.
fn is_of(p: Placement, into: usize, object: usize) -> bool
    ensures { result ≡ puts_object_into into object p }
{
    usize::from(p.into) == into && usize::from(p.object) == object
}

// Whether a placement names a record, and either that is none of `records` or its object none of `objects`.
#[tactic(auto, using(std::proofs::lemmas::Bool::Decides::nat_tests), unfolding(basics::specs::Choice::both))]
fn strays(p: Placement, into: usize, records: usize, objects: usize) -> bool
    ensures { result ≡ strays_from records objects into p }
{
    let named = usize::from(p.into);
    named == into && !(is_number_of(named, records) && is_number_of(usize::from(p.object), objects))
}

// Whether a number is one of `most` that are counted from 1.
fn is_number_of(number: usize, most: usize) -> bool
    ensures { result ≡ between 1 number most }
{
    1 <= number && number <= most
}
