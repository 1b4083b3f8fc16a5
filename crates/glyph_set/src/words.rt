// The runs of a set counted by the word: eight bytes are a number whose bit j is glyph j behind their first, and a run starts at each bit that
// is set while the one before it is not.
ghost use Rattle.std.specs.Prelude.{◌≡◌, ◌+◌, ◌*◌, ◌/◌, ◌^◌, ◌<◌, ◌≤◌, length};
ghost use Rattle.glyph_set.specs.GlyphSet.{run_count};
ghost use Rattle.glyph_set.specs.Words.{starts_in, WordOf, Spans};

// How many runs the set has, whose glyphs lie from `first` to `last`: the words from one to the other are looked at.
pub fn run_count(set: &[u8], first: u16, last: u16) -> usize
    requires in_bounds { 8192 ≤ length set.now }
    requires spans { Spans set.now first last }
    ensures { result ≡ run_count set.now }
{
    let end = usize::from(last / 64) + 1;
    let mut prior: u64 = 0;
    let mut count: usize = 0;
    for k in usize::from(first / 64)..end {
        let word = word_at(set, k);
        count += starts(word, prior);
        prior = word;
    }
    count
}

// Word `k`: eight bytes, of which the first has the lowest glyphs.
fn word_at(set: &[u8], k: usize) -> u64
    requires { 8 * k + 8 ≤ length set.now }
    ensures { WordOf set.now (64 * k) result }
{
    let mut bytes = [0; 8];
    bytes.copy_from_slice(&set[8 * k..8 * k + 8]);
    u64::from_le_bytes(bytes)
}

// How many runs start in a word, behind the word `prior`, whose highest bit is carried over.
fn starts(word: u64, prior: u64) -> usize
    ensures { result ≡ starts_in 64 word (prior / 2 ^ 63) }
{
    (word & !((word << 1) | (prior >> 63))).count_ones() as usize
}
