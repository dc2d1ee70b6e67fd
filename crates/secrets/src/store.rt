// The store of the peer's secrets: 49 places keep all of them.
ghost use Rattle.std.specs.Prelude.{◌≡◌, ◌<◌, if◌then◌else◌, Some, None};
ghost use Rattle.std.specs.List.{list_all};
ghost use Rattle.secrets.specs.Store.{no_secrets, place_of, agrees, answered, fits, kept, older, ComesBack, HonestFits};

use crate::derivation::derive;
use crate::known::Known;

// A place of the store, by how many low bits of its indices are zero.
#[derive(Clone, Copy, Debug, PartialEq, Eq)]
struct Place {
    bits: u32,
    ghost few: { bits < 49 },
}

impl Place {
    // The place of an index.
    fn of(index: u64) -> Place
        ensures { result.bits ≡ place_of index }
    {
        Place {
            bits: index.trailing_zeros().min(48),
        }
    }

    // Whether a secret of this place agrees with what a lower place holds.
    fn agrees(self, secret: [u8; 32], lower: Option<Known>) -> bool
        ensures { result ≡ agrees secret self.bits lower }
    {
        lower.is_none_or(|known| derive(secret, known.index, self.bits) == known.secret)
    }

    // Whether it agrees with all lower places.
    fn agrees_with_all(self, secret: [u8; 32], lower: &[Option<Known>]) -> bool
        ensures { result ≡ list_all (agrees secret self.bits) lower.now }
    {
        lower.iter().all(|known| self.agrees(secret, *known))
    }

    // What the secret here answers for an index.
    fn answer(self, held: Option<Known>, index: u64) -> Option<[u8; 32]>
        ensures { result ≡ answered index self.bits held }
    {
        let known = held?;
        if known.index == (index >> self.bits) << self.bits {
            Some(derive(known.secret, index, self.bits))
        } else {
            None
        }
    }
}

#[derive(Clone, Copy, Debug, PartialEq, Eq)]
pub struct Store {
    places: [Option<Known>; 49],
}

impl Store {
    // A store with no secret.
    pub fn new() -> Store
        ensures { result.places ≡ no_secrets }
    {
        Store { places: [None; 49] }
    }

    // Whether a secret fits at an index. They come apart: a revocation brings the one, its number gives the other.
    pub fn fits(&self, index: u64, secret: &[u8; 32]) -> bool
        ensures { result ≡ fits self.now.places index secret.now }
    {
        let place = Place::of(index);
        place.agrees_with_all(*secret, &self.places[..place.bits as usize])
    }

    // Keeps a secret at its index; one that does not fit alters nothing.
    pub fn insert(&mut self, index: u64, secret: &[u8; 32]) -> bool
        ensures answer { result ≡ fits self.old.places index secret.now }
        ensures after { self.new.places ≡ (if result then kept self.old.places index secret.now else self.old.places) }
    {
        if !self.fits(index, secret) {
            return false;
        }
        self.places[Place::of(index).bits as usize] = Some(Known {
            index,
            secret: *secret,
        });
        true
    }

    // The secret of an index, from the first place that answers.
    pub fn get(&self, index: u64) -> Option<[u8; 32]>
        ensures { result ≡ older self.now.places index }
    {
        for (bits, held) in self.places.iter().enumerate() {
            let place = Place { bits: bits as u32 };
            if let Some(secret) = place.answer(*held, index) {
                return Some(secret);
            }
        }
        None
    }
}

// Carries the law that every secret which was taken comes back.
pub fn secrets_come_back() -> u8
    ensures { ComesBack }
{
    0
}

// Carries the law that secrets derived from one seed are all taken.
pub fn honest_secrets_fit() -> u8
    ensures { HonestFits }
{
    0
}
