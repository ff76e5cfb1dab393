// What is free and what is owed, over the whole table.
ghost use Rattle.std.specs.Prelude.{◌≡◌, ◌≤◌, length, MatchOption};
ghost use Rattle.places.specs.Places.{at, marks_in};
ghost use Rattle.places.specs.Totals.{free, free_in, owed_in, owed_total, FirstOfPlace, FirstOfTree, NoneOwed, NoneOwedAt};

use super::climbing::{is_in_tree, node_at};
use super::marks::{count_owed, first_owed};
use super::node::Place;

// How many places are free. Counted by a loop: the library's count of a filtered chain takes three to eight times as long, and a slip
// beside a chain's count or sum would be refused for the chain's form and not for its answer.
pub fn free_places(places: &[Place]) -> usize
    ensures count { result ≡ free_in places.now }
    ensures listed { result ≡ length (free places.now) }
{
    let mut free = 0;
    for place in places {
        if place.is_none() {
            free += 1;
        }
    }
    free
}

fn owed_in(place: Place) -> usize
    ensures value { result ≡ owed_in place }
    ensures few { result ≤ 16 }
{
    place.map_or(0, |node| count_owed(node.marks) as usize)
}

// How many instances are owed, in the tree and in what is held.
pub fn owed_total(places: &[Place]) -> usize
    ensures { result ≡ owed_total places.now }
{
    places.iter().map(|place| owed_in(*place)).sum()
}

fn marks_at(places: &[Place], p: u16) -> u16
    ensures { result ≡ marks_in (at places.now p) }
{
    node_at(places, p).map_or(0, |node| node.marks)
}

// The first owed attribute of a place of the tree.
fn first_of_place(places: &[Place], root: u16, p: u16) -> Option<u16>
    ensures { MatchOption result (NoneOwedAt places.now root p) (λ a. FirstOfPlace places.now root p a) }
{
    first_owed(marks_at(places, p)).filter(|_| is_in_tree(places, root, p))
}

// The first owed instance of the tree, by place and then by attribute.
pub fn first_owed_in_tree(places: &[Place], root: u16) -> Option<(u16, u16)>
    requires { length places.now ≤ 4096 }
    ensures { MatchOption result (NoneOwed places.now root) (λ x. FirstOfTree places.now root x.0 x.1) }
{
    (0..places.len() as u16).find_map(|p| {
        let attribute = first_of_place(places, root, p)?;
        Some((p, attribute))
    })
}
