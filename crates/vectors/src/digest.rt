// One number for many: two lists that differ have, but for rare chance, different digests.
use crate::input::Entry;

const MODULUS: u64 = 4294967291;

// The digest of the lists so far; it starts with 0.
#[derive(Clone, Copy)]
pub struct Digest(u64);

impl Digest {
    pub fn new() -> Digest {
        Digest(0)
    }

    // The digest with the numbers of a list more.
    pub fn with<T: Entry>(self, list: &[T]) -> Digest {
        Digest(
            list.iter().fold(self.0, |digest, number| {
                let number: u32 = (*number).into();
                (65599 * (digest % MODULUS) + u64::from(number) + 1) % MODULUS
            }),
        )
    }

    // As it is stored.
    pub fn number(self) -> u64 {
        self.0
    }
}
