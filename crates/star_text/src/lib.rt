// The bytes of a STAR File: the class of a byte, the first byte that is not allowed, and the comparison of two names or codes.
#![tactic(auto)]

pub mod refusal;

ghost use Rattle.std.specs.Prelude.{◌≡◌, ℕ, ◌+◌, ◌<◌, ◌≤◌, true, false, not, length, drop, slice_index, position};
ghost use Rattle.std.specs.Int.{w32, from_le_bytes};
ghost use Rattle.star_text.specs.Bytes.{is_allowed, first_refused, leading};
ghost use Rattle.star_text.specs.Classes.{Classes, class_in, terminate_in, white_in, below_in};
ghost use Rattle.star_text.specs.Compare.{compare_of};
ghost use Rattle.star_text.specs.Pairs.{four_at, Comparing, SameFour, Skipped};

// The most bytes that a file may have.
pub const MOST_BYTES: usize = 1048576;

// Of the classes of bytes, those of white space: 0 is not allowed, 1 printable, 2 blank, 3 terminate. Numbers and no enum: `run_end` takes any table that
// is lent and any class, as its clause says.
const BLANK: u8 = 2;

const TERMINATE: u8 = 3;

// The class of each byte.
const CLASSES: [u8; 256] = [
    0, 0, 0, 0, 0, 0, 0, 0, 0, 2, 3, 2, 3, 3, 0, 0, 0, 0, 0, 0, 0, 0, 0, 0, 0, 0, 0, 0, 0, 0, 0, 0,
    2, 1, 1, 1, 1, 1, 1, 1, 1, 1, 1, 1, 1, 1, 1, 1, 1, 1, 1, 1, 1, 1, 1, 1, 1, 1, 1, 1, 1, 1, 1, 1,
    1, 1, 1, 1, 1, 1, 1, 1, 1, 1, 1, 1, 1, 1, 1, 1, 1, 1, 1, 1, 1, 1, 1, 1, 1, 1, 1, 1, 1, 1, 1, 1,
    1, 1, 1, 1, 1, 1, 1, 1, 1, 1, 1, 1, 1, 1, 1, 1, 1, 1, 1, 1, 1, 1, 1, 1, 1, 1, 1, 1, 1, 1, 1, 0,
    0, 0, 0, 0, 0, 0, 0, 0, 0, 0, 0, 0, 0, 0, 0, 0, 0, 0, 0, 0, 0, 0, 0, 0, 0, 0, 0, 0, 0, 0, 0, 0,
    0, 0, 0, 0, 0, 0, 0, 0, 0, 0, 0, 0, 0, 0, 0, 0, 0, 0, 0, 0, 0, 0, 0, 0, 0, 0, 0, 0, 0, 0, 0, 0,
    0, 0, 0, 0, 0, 0, 0, 0, 0, 0, 0, 0, 0, 0, 0, 0, 0, 0, 0, 0, 0, 0, 0, 0, 0, 0, 0, 0, 0, 0, 0, 0,
    0, 0, 0, 0, 0, 0, 0, 0, 0, 0, 0, 0, 0, 0, 0, 0, 0, 0, 0, 0, 0, 0, 0, 0, 0, 0, 0, 0, 0, 0, 0, 0,
];

// The class of each byte, for those who lend it to the functions below: an index into the constant itself copies it.
pub fn class_table() -> [u8; 256]
    ensures { Classes result }
{
    CLASSES
}

// The class of a byte, by the table that is lent; so in the functions below.
fn class_of(classes: &[u8; 256], b: u8) -> u8
    ensures { result ≡ class_in classes.now b }
{
    classes[b as usize]
}

// Whether a byte is white space.
pub fn is_white(classes: &[u8; 256], b: u8) -> bool
    ensures { result ≡ white_in classes.now b }
{
    BLANK <= class_of(classes, b)
}

// Whether a byte ends a line.
pub fn is_terminate(classes: &[u8; 256], b: u8) -> bool
    ensures { result ≡ terminate_in classes.now b }
{
    TERMINATE <= class_of(classes, b)
}

// Whether a byte is allowed: 9 to 13 and 32 to 126.
#[tactic(auto, unfolding(crate::specs::Bytes::is_allowed))]
fn is_allowed(b: u8) -> bool
    ensures { result ≡ is_allowed b }
{
    matches!(b, 9..=13 | 32..=126)
}

// Answers true only where every byte is allowed: none is below 9, above 126, or from 14 to 31, which lie less than 18 above 14; those below 14 wrap
// far above. Bounds over the whole file in place of a test of each byte: of many bytes at once, which a test that ends at a byte does not let the compiler do.
fn all_allowed(file: &[u8]) -> bool
    ensures { result ≡ true → first_refused file.now ≡ length file.now }
{
    let mut low = 255u8;
    let mut high = 0u8;
    let mut over = 255u8;
    for b in file {
        low = low.min(*b);
        high = high.max(*b);
        over = over.min(b.wrapping_sub(14));
    }
    9 <= low && high <= 126 && 18 <= over
}

// The place of the first byte that is not allowed.
fn refused_at(file: &[u8]) -> Option<usize>
    ensures { result ≡ position (λ b. not (is_allowed b)) file.now }
{
    file.iter().position(|b| !is_allowed(*b))
}

// The place of the first byte that is not allowed, or the file's length where there is none.
pub fn first_refused(file: &[u8]) -> usize
    ensures { result ≡ first_refused file.now }
{
    if all_allowed(file) {
        return file.len();
    }
    refused_at(file).unwrap_or(file.len())
}

// Answers true only where the classes of the four bytes from a place on are below `class`.
fn four_below(classes: &[u8; 256], file: &[u8], at: usize, class: u8) -> bool
    requires { at + 3 < length file.now }
    ensures { result ≡ true → (k : ℕ) → k < 4 → below_in classes.now class (slice_index file.now (at + k)) ≡ true }
{
    for i in 0..4 {
        if class <= class_of(classes, file[at + i]) {
            return false;
        }
    }
    true
}

// A place of the run from `from` on of bytes whose class is below `class`, which ends where the run from there ends: four are passed at a time. Chunks of the
// rest would be no plainer: `from` may lie behind the file, and the place is counted beside them.
fn skip_below(classes: &[u8; 256], file: &[u8], from: usize, class: u8) -> usize
    ensures { result + length (leading (below_in classes.now class) (drop result file.now))
        ≡ from + length (leading (below_in classes.now class) (drop from file.now)) }
{
    let mut at = from;
    while at < file.len() {
        if file.len() - at < 4 {
            return at;
        }
        if !four_below(classes, file, at, class) {
            return at;
        }
        at += 4;
    }
    at
}

// The end of the run of bytes from `from` on whose class is below `class`.
pub fn run_end(classes: &[u8; 256], file: &[u8], from: usize, class: u8) -> usize
    ensures { result ≡ from + length (leading (below_in classes.now class) (drop from file.now)) }
{
    let skipped = skip_below(classes, file, from, class);
    for at in skipped..file.len() {
        if class <= class_of(classes, file[at]) {
            return at;
        }
    }
    skipped.max(file.len())
}

// Four bytes as one number, which the compiler loads at once.
fn four(bytes: &[u8], at: usize) -> u32
    requires { at + 4 ≤ length bytes.now }
    ensures { result ≡ from_le_bytes w32 (four_at bytes.now at) }
{
    u32::from_le_bytes([bytes[at], bytes[at + 1], bytes[at + 2], bytes[at + 3]])
}

// Where four bytes first are not the four of the other, or fewer than four are left. Chunks of both would be no plainer: the place is asked for in bytes, of four
// that differ and of the end of the last whole four alike.
fn skip_same(a: &[u8], b: &[u8]) -> usize
    requires { length a.now ≡ length b.now }
    ensures { Skipped a.now b.now result }
{
    let mut at = 0;
    while a.len() - at >= 4 {
        if four(a, at) != four(b, at) {
            return at;
        }
        at += 4;
    }
    at
}

// What comparing two names or codes answers: whether they are equal, and how many pairs of bytes were compared.
#[repr(C)]
#[derive(Clone, Copy)]
pub struct Comparison {
    pub equal: bool,
    pub pairs: usize,
}

// How many pairs are compared of four that are not all equal.
fn pairs_of_four(a: &[u8], b: &[u8], at: usize) -> usize
    requires comparing { Comparing a.now b.now at }
    requires at_in_bounds { at + 4 ≤ length a.now }
    requires fact { SameFour a.now b.now at → ⊥ }
    ensures upper_bound { result ≤ 4 }
    ensures result_value { record { equal = false; pairs = at + result } ≡ compare_of a.now b.now }
{
    for i in 0..3 {
        if a[at + i] != b[at + i] {
            let compared = i + 1;
            return compared;
        }
    }
    4
}

// Compares pair by pair from a place on, before which the pairs are equal.
fn compare_from(a: &[u8], b: &[u8], from: usize) -> Comparison
    requires { Comparing a.now b.now from }
    ensures { result ≡ compare_of a.now b.now }
{
    for at in from..a.len() {
        if a[at] != b[at] {
            let pairs = at + 1;
            return Comparison {
                equal: false,
                pairs,
            };
        }
    }
    Comparison {
        equal: true,
        pairs: a.len(),
    }
}

// Compares two names or codes: the lengths first, and then from the front up to the first pair of bytes that differs. Of four that differ the pairs
// are looked at for the count alone.
pub fn compare(a: &[u8], b: &[u8]) -> Comparison
    ensures { result ≡ compare_of a.now b.now }
{
    if a.len() != b.len() {
        return Comparison {
            equal: false,
            pairs: 0,
        };
    }
    let at = skip_same(a, b);
    if a.len() - at >= 4 {
        let pairs = at + pairs_of_four(a, b, at);
        return Comparison {
            equal: false,
            pairs,
        };
    }
    compare_from(a, b, at)
}
