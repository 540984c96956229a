// A pair of an origin and the store of its copies.
ghost use Rattle.std.specs.Prelude.{◌≡◌, ◌&&◌};
ghost use Rattle.snapshot.specs.declared.state.Held.TheVariants.{Closed as FreshlyClosed};

use crate::state::Held;
use device::Device;
use store::Store;

#[derive(Drop)]
pub struct Pair<O, C> {
    pub(crate) origin: O,
    pub(crate) store: Store<C>,
    pub(crate) held: Held,
}

impl<O: Device, C: Device> Pair<O, C> {
    // Puts a pair together, closed.
    pub fn new(origin: O, store: Store<C>) -> Pair<O, C>
        ensures origin { result.origin ≡ origin }
        ensures store { result.store ≡ store }
        ensures closed { result.held ≡ FreshlyClosed }
    {
        Pair {
            origin,
            store,
            held: Held::Closed,
        }
    }

    // Takes it apart again.
    pub fn into_parts(self) -> (O, Store<C>)
        ensures origin { result.0 ≡ self.origin }
        ensures store { result.1 ≡ self.store }
    {
        (self.origin, self.store)
    }

    // Whether both devices are on.
    pub(crate) fn is_running(&self) -> bool
        ensures { result ≡ (O.disk self.now.origin).on && (C.disk self.now.store.cow).on }
    {
        self.origin.is_on() && self.store.is_on()
    }
}
