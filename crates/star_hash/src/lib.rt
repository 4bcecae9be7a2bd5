// The hash by which an index finds a name of a set, 32-bit FNV-1a of the set's number and the name, and the slot where such a name belongs.
#![tactic(auto)]

ghost use Rattle.std.specs.Prelude.{◌≡◌};
ghost use Rattle.star_hash.specs.Hash.{mixed, fnv as hash_fnv, hash_of, home_of};

// Where 32-bit FNV-1a begins.
pub const BASIS: u32 = 2166136261;

// What 32-bit FNV-1a multiplies by, modulo two to the 32.
const PRIME: u32 = 16777619;

// The hash with a byte more.
fn mix(h: u32, byte: u8) -> u32
    ensures { result ≡ mixed h byte }
{
    (h ^ u32::from(byte)).wrapping_mul(PRIME)
}

// 32-bit FNV-1a of these bytes, from a hash on.
pub fn fnv(h: u32, bytes: &[u8]) -> u32
    ensures { result ≡ hash_fnv h bytes.now }
{
    let mut state = h;
    for b in bytes {
        state = mix(state, *b);
    }
    state
}

// The hash of a name of a set: the four bytes of the set's number, lowest first, then the name.
pub fn hash(set: u32, name: &[u8]) -> u32
    ensures { result ≡ hash_of set name.now }
{
    let bytes = set.to_le_bytes();
    let of_set = fnv(BASIS, &bytes);
    fnv(of_set, name)
}

// The slot where a name of a set belongs, of so many; of no slots the hash itself.
pub fn home_of(slots: usize, set: u32, name: &[u8]) -> usize
    ensures { result ≡ home_of slots set name.now }
{
    let hash = hash(set, name) as usize;
    if slots == 0 {
        return hash;
    }
    hash % slots
}
