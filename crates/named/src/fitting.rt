// Question 14: is every point that the items name fitted?
ghost use Rattle.std.specs.Prelude.{◌≡◌, ◌/◌, length, MatchResult};
ghost use Rattle.named.specs.Fitting.{AllFit, FirstUnfitted, fit_named, fitting};
ghost use Rattle.named.specs.Naming.{known_point};

use crate::point::known_point;
use decode::items::Items;
use item::item::Item;
use plant::fault::Unfitted;
use plant::plant::Plant;

// The item at a place alone.
fn check_item<P: Plant>(plant: &P, place: usize, item: Option<Item>) -> Result<(), Unfitted>
    ensures { result ≡ fit_named (P.Plant.meaning plant.now) P.Plant.layer place (known_point item) }
{
    let Some(named) = known_point(item) else {
        return Ok(());
    };
    plant
        .fitted(named.point)
        .map_err(|fault| Unfitted { place, fault })
}

// The first item whose point is not fitted, with the plant's own fault.
pub fn first_unfitted<P: Plant>(plant: &P, items: Items) -> Result<(), Unfitted>
    ensures answer { result ≡ fitting (P.Plant.meaning plant.now) P.Plant.layer items.entry.edition items.entry.words.now (length items.entry.words.now / 2) }
    ensures first { MatchResult result (λ _. AllFit (P.Plant.meaning plant.now) items.entry.edition items.entry.words.now (length items.entry.words.now / 2)) (FirstUnfitted (P.Plant.meaning plant.now) P.Plant.layer items.entry.edition items.entry.words.now (length items.entry.words.now / 2)) }
{
    for (place, item) in items.enumerate() {
        check_item(plant, place, item)?;
    }
    Ok(())
}
