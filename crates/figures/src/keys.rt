// One key: what it holds, whose it is, and what a load or a grant leaves of it.
ghost use Rattle.std.specs.Prelude.{◌≡◌};
ghost use Rattle.figures.specs.Keys.{free_key, is_key, granted_key, loaded_key};

use crate::held::Held;
use crate::limits::KEY_BYTES;
use crate::names::{KeyId, NO_ID, Timestamp};

// No `Option<Key>`: 01, The shape of each place, wants an array of key structs and a free place has zero bytes (`free_key`).
#[derive(Clone, Copy)]
pub struct Key {
    pub held: bool,
    pub id: KeyId,
    pub replay: Timestamp,
    pub bytes: [u8; KEY_BYTES],
}

pub const FREE_KEY: Key = Key {
    held: false,
    id: NO_ID,
    replay: Timestamp(0),
    bytes: [0; KEY_BYTES],
};

impl Held for Key {
    type Name = KeyId;

    ghost named = { λ i k. is_key i k };

    ghost taken = { λ k. k.held };

    ghost blank = { free_key };

    #[tactic(auto, unfolding(crate::specs::Names::same_id))]
    fn is_named(self, id: KeyId) -> bool {
        self.id == id && self.held
    }

    fn is_held(self) -> bool {
        self.held
    }

    #[tactic(auto, unfolding(crate::specs::Keys::free_key, crate::specs::Names::no_id))]
    fn free() -> Key {
        FREE_KEY
    }
}

impl Key {
    // The key after a grant: a live one moves its replay counter.
    #[tactic(auto, unfolding(crate::specs::Keys::granted_key))]
    pub fn granted(self, ts: Timestamp) -> Key
        ensures { result ≡ granted_key ts self }
    {
        if ts.live(self.replay) {
            Key { replay: ts, ..self }
        } else {
            self
        }
    }

    // The key after a load: held under the ID, with the load's bytes where it carries some. 01, The shape of each place: the bytes travel
    // in an array beside the frame, whose flag says whether they count.
    #[tactic(auto, unfolding(crate::specs::Keys::loaded_key))]
    pub fn loaded(self, id: KeyId, carried: bool, bytes: [u8; KEY_BYTES]) -> Key
        ensures { result ≡ loaded_key id carried bytes self }
    {
        let bytes = if carried { bytes } else { self.bytes };
        Key {
            held: true,
            id,
            bytes,
            ..self
        }
    }
}
