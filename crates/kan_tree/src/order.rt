//! The sixteen places of a node in an order.

ghost use Rattle.std.specs.Prelude.{◌≡◌, ◌≢◌, ◌<◌, ℕ};
ghost use Rattle.std.proofs.Common.{get_or};
ghost use Rattle.kan_tree.specs.Orders.{IsInverse};

/// The sixteen places in an order.
#[derive(Clone, Copy)]
pub(crate) struct Order {
    // The index of each place.
    indices: [u8; 16],
    // The place at each index.
    places: [u8; 16],
    ghost by_place: { IsInverse places indices },
    ghost by_index: { IsInverse indices places },
}

impl Order {
    /// Each place is its own index.
    pub(crate) fn rising() -> Order {
        Order {
            indices: [0, 1, 2, 3, 4, 5, 6, 7, 8, 9, 10, 11, 12, 13, 14, 15],
            places: [0, 1, 2, 3, 4, 5, 6, 7, 8, 9, 10, 11, 12, 13, 14, 15],
        }
    }

    /// The index of a place.
    pub(crate) fn index_of(&self, place: usize) -> usize
        requires { place < 16 }
        ensures index { result ≡ get_or self.now.indices place 16 }
        ensures small { result < 16 }
    {
        usize::from(self.indices[place])
    }

    // The place at an index.
    fn place_at(&self, index: usize) -> usize
        requires { index < 16 }
        ensures place { result ≡ get_or self.now.places index 16 }
        ensures small { result < 16 }
    {
        usize::from(self.places[index])
    }

    /// Puts a place at an index. The one that is there comes to where this one was.
    pub(crate) fn bring(&mut self, place: usize, index: usize)
        requires place { place < 16 }
        requires index { index < 16 }
        ensures here { get_or self.new.indices place 16 ≡ index }
        ensures exchanged { (d : ℕ) → d ≢ place → get_or self.old.indices d 16 ≡ index →
            get_or self.new.indices d 16 ≡ get_or self.old.indices place 16 }
        ensures others { (d : ℕ) → d ≢ place → get_or self.old.indices d 16 ≢ index →
            get_or self.new.indices d 16 ≡ get_or self.old.indices d 16 }
    {
        let left = self.index_of(place);
        let other = self.place_at(index);
        let mut indices = self.indices;
        let mut places = self.places;
        indices[other] = left as u8;
        indices[place] = index as u8;
        places[left] = other as u8;
        places[index] = place as u8;
        *self = Order { indices, places };
    }
}
