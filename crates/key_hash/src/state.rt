//! The three words that a hash works on.

ghost use Rattle.std.specs.Prelude.{◌≡◌, drop};
ghost use Rattle.std.specs.Int.{w32, from_le_bytes};
ghost use Rattle.key_hash.specs.Jhash.{start, add_block, mix_a, mix_b, mix_c, mix, finish_a, finish_b, finish_c, finish, padded};
ghost use Rattle.key_hash.specs.State.{words_of};

/// How many bytes are added to the words at a time.
pub const BLOCK_LEN: usize = 12;

/// The three words that a hash works on.
#[derive(Clone, Copy)]
pub struct State {
    a: u32,
    b: u32,
    c: u32,
}

impl State {
    /// The words before the first block of a key of `key_len` bytes.
    #[tactic(auto, unfolding(crate::specs::Jhash::start))]
    pub fn new(key_len: u32, seed: u32) -> Self
        ensures { words_of result ≡ start key_len seed }
    {
        let word = 0xdead_beef_u32.wrapping_add(key_len).wrapping_add(seed);
        State {
            a: word,
            b: word,
            c: word,
        }
    }

    /// Adds a block, without mixing the words.
    #[tactic(auto, unfolding(crate::specs::Jhash::add_block))]
    pub fn add_block(&mut self, block: &[u8; BLOCK_LEN])
        ensures { words_of self.new ≡ add_block (words_of self.old) block.now }
    {
        let a = u32::from_le_bytes([block[0], block[1], block[2], block[3]]);
        let b = u32::from_le_bytes([block[4], block[5], block[6], block[7]]);
        let c = u32::from_le_bytes([block[8], block[9], block[10], block[11]]);
        self.a = self.a.wrapping_add(a);
        self.b = self.b.wrapping_add(b);
        self.c = self.c.wrapping_add(c);
    }

    /// Adds the last bytes, at most a block of them, with zeros after them.
    pub fn add_last(&mut self, bytes: &[u8])
        ensures { words_of self.new ≡ add_block (words_of self.old) (padded bytes.now) }
    {
        self.a = self.a.wrapping_add(word_at(bytes, 0));
        self.b = self.b.wrapping_add(word_at(bytes, 4));
        self.c = self.c.wrapping_add(word_at(bytes, 8));
    }

    /// Mixes the words after a block that is not the last.
    #[tactic(auto, unfolding(crate::specs::Jhash::mix))]
    pub fn mix(&mut self)
        ensures { words_of self.new ≡ mix (words_of self.old) }
    {
        self.mix_a(4);
        self.mix_b(6);
        self.mix_c(8);
        self.mix_a(16);
        self.mix_b(19);
        self.mix_c(4);
    }

    /// Mixes the words after the last block, and returns the hash.
    #[tactic(auto, unfolding(crate::specs::Jhash::finish))]
    pub fn finish(mut self) -> u32
        ensures { result ≡ (finish (words_of self)).c }
    {
        self.finish_c(14);
        self.finish_a(11);
        self.finish_b(25);
        self.finish_c(16);
        self.finish_a(4);
        self.finish_b(14);
        self.finish_c(24);
        self.c
    }

    #[tactic(auto, unfolding(crate::specs::Jhash::mix_a))]
    fn mix_a(&mut self, places: u32)
        ensures { words_of self.new ≡ mix_a places (words_of self.old) }
    {
        self.a = self.a.wrapping_sub(self.c) ^ self.c.rotate_left(places);
        self.c = self.c.wrapping_add(self.b);
    }

    #[tactic(auto, unfolding(crate::specs::Jhash::mix_b))]
    fn mix_b(&mut self, places: u32)
        ensures { words_of self.new ≡ mix_b places (words_of self.old) }
    {
        self.b = self.b.wrapping_sub(self.a) ^ self.a.rotate_left(places);
        self.a = self.a.wrapping_add(self.c);
    }

    #[tactic(auto, unfolding(crate::specs::Jhash::mix_c))]
    fn mix_c(&mut self, places: u32)
        ensures { words_of self.new ≡ mix_c places (words_of self.old) }
    {
        self.c = self.c.wrapping_sub(self.b) ^ self.b.rotate_left(places);
        self.b = self.b.wrapping_add(self.a);
    }

    #[tactic(auto, unfolding(crate::specs::Jhash::finish_c))]
    fn finish_c(&mut self, places: u32)
        ensures { words_of self.new ≡ finish_c places (words_of self.old) }
    {
        self.c = (self.c ^ self.b).wrapping_sub(self.b.rotate_left(places));
    }

    #[tactic(auto, unfolding(crate::specs::Jhash::finish_a))]
    fn finish_a(&mut self, places: u32)
        ensures { words_of self.new ≡ finish_a places (words_of self.old) }
    {
        self.a = (self.a ^ self.c).wrapping_sub(self.c.rotate_left(places));
    }

    #[tactic(auto, unfolding(crate::specs::Jhash::finish_b))]
    fn finish_b(&mut self, places: u32)
        ensures { words_of self.new ≡ finish_b places (words_of self.old) }
    {
        self.b = (self.b ^ self.a).wrapping_sub(self.a.rotate_left(places));
    }
}

/// The little-endian word of the four bytes from a place on, with zeros after the last byte.
fn word_at(bytes: &[u8], place: usize) -> u32
    ensures { result ≡ from_le_bytes w32 (drop place bytes.now) }
{
    match bytes.get(place..) {
        Some(rest) => first_word(rest),
        None => 0,
    }
}

/// The little-endian word of the first four bytes, with zeros after them where there are fewer.
fn first_word(bytes: &[u8]) -> u32
    ensures { result ≡ from_le_bytes w32 bytes.now }
{
    match *bytes {
        [a, b, c, d, ..] => u32::from_le_bytes([a, b, c, d]),
        [a, b, c] => u32::from_le_bytes([a, b, c, 0]),
        [a, b] => u32::from_le_bytes([a, b, 0, 0]),
        [a] => u32::from_le_bytes([a, 0, 0, 0]),
        [] => 0,
    }
}
