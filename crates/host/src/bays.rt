ghost use Rattle.std.specs.Prelude.{◌≡◌, refl};
ghost use Rattle.std.proofs.Common.{◌∙◌};
ghost use Rattle.host.specs.Bays.{part, part_small, Outside, unmoved, outward};

use crate::hosts::Host;
use crate::refusals::Refusal;
use crate::rows::Row;

/// A bay: `count` places of the host below, from place `first` on, cut short where that host ends.
/// Rows outside the bay never change.
#[derive(Drop)]
pub struct Bay<H> {
    pub below: H,
    pub first: u8,
    pub count: u8,
}

impl<H: Host> Host for Bay<H> {
    ghost rows = { λ h. part (H.Host.rows h.below) h.first h.count };

    ghost small = { λ h. part_small (H.Host.rows h.below) h.first h.count (H.Host.small h.below) };

    ghost held = { λ g h. H.Host.held g.below h.below × (h.first ≡ g.first) × (h.count ≡ g.count) × Outside g.first g.count (H.Host.rows g.below) (H.Host.rows h.below) };

    ghost still = { λ h. (H.Host.still h.below, refl, refl, unmoved h.first h.count (H.Host.rows h.below)) };

    ghost onward = { λ a b c p q. (H.Host.onward a.below b.below c.below p.0 q.0, q.1 ∙ p.1, q.2 ∙ p.2, outward p.1 p.2 p.3 q.3) };

    fn capacity(&self) -> u8 {
        self.below
            .capacity()
            .saturating_sub(self.first)
            .min(self.count)
    }

    fn read(&self, place: u8) -> Result<Row, Refusal> {
        if place < self.capacity() {
            self.below.read(self.first + place)
        } else {
            Err(Refusal::BeyondCapacity)
        }
    }

    fn write(&mut self, place: u8, row: Row) -> Result<(), Refusal> {
        if place < self.capacity() {
            self.below.write(self.first + place, row)
        } else {
            Err(Refusal::BeyondCapacity)
        }
    }
}
