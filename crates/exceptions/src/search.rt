// One search by key for every kind of keyed record.
ghost use Rattle.std.specs.Prelude.{◌≡◌, ℕ, ◌<◌, length, IfSome};
ghost use Rattle.exceptions.specs.Search.{first};

// A record that is found by a number; `K` tells apart the numbers that one record may be found by.
pub trait Keyed<K> {
    ghost keyed: { Self → ℕ };

    fn key(&self) -> u64
        ensures { result ≡ keyed self.now };
}

// The place of the first record with the key, or nothing. A rule of the project: one generic search by key over a slice, from its
// front.
pub fn find<K, R: Keyed<K>>(records: &[R], key: u64) -> Option<usize>
    ensures first { result ≡ first R.keyed key records.now }
    ensures within { IfSome result (λ i. i < length records.now) }
{
    // a rule of the project: an empty list is tested first
    if records.is_empty() {
        return None;
    }
    records.iter().position(|record| record.key() == key)
}
