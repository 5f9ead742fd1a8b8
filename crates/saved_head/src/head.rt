// The head of a saved file: 64 bytes. Whatever is no whole file of this layout is refused by 19.
ghost use Rattle.std.specs.Prelude.{◌≡◌, ◌&&◌, ◌+◌, ◌*◌, not, eqb, ltb, length};
ghost use Rattle.scheme.specs.Numbers.{pick};
ghost use Rattle.check_order.specs.Answer.{code_of};
ghost use Rattle.saved_head.specs.Kind.{is_ciphertexts, is_packed};
ghost use Rattle.saved_head.specs.Head.{head_of, has_tallies, has_counts, tallies_size};
ghost use Rattle.saved_head.specs.Head.{signature_fails, kept_fails, file_fails};

use crate::Kind;
use check_order::Refusal;
use primus_reduce::Modulus;

// What the words are, and what they were made with; 0 where a number does not apply.
// Stays: numbers, no Options: they go as they are to `given`, `try_new` and the checks.
#[derive(Clone, Copy)]
pub struct Head {
    pub kind: Kind,
    pub modulus: Modulus,
    pub n: usize,
    pub m: usize,
    pub base_log: u32,
    pub levels: u32,
    pub plaintext_modulus: u32,
    pub error_limit: u32,
    pub count: u32,
    pub words: u32,
    pub beside: u32,
}

impl Head {
    // Bit 1 beside the words: a tally for each ciphertext.
    pub fn has_tallies(self) -> bool
        ensures { result ≡ has_tallies self.beside }
    {
        self.beside % 2 == 1
    }

    // Bit 2: the number c of encryptions summed in each.
    pub fn has_counts(self) -> bool
        ensures { result ≡ has_counts self.beside }
    {
        self.beside / 2 % 2 == 1
    }

    // How many bytes the tallies have; the numbers c come after them.
    pub fn tallies_size(self) -> usize
        ensures { result ≡ tallies_size self.count self.beside }
    {
        if self.has_tallies() {
            return 8 * self.count as usize;
        }
        0
    }

    // A packed ciphertext has one c, however many bodies.
    fn counts_size(self) -> usize
        ensures { result ≡ pick (has_counts self.beside) (pick (is_packed self.kind) 4 (4 * self.count)) 0 }
    {
        if !self.has_counts() {
            return 0;
        }
        if self.kind.is_packed() {
            return 4;
        }
        4 * self.count as usize
    }

    // Ciphertexts of one message have tallies and numbers c, a packed one a c, and nothing else has anything beside its words.
    fn beside_refused(self) -> bool
        ensures { result ≡ pick (is_ciphertexts self.kind) (ltb 3 self.beside)
            (pick (is_packed self.kind) (not (eqb self.beside 0) && not (eqb self.beside 2))
            (not (eqb self.beside 0))) }
    {
        if self.kind.is_ciphertexts() {
            return 3 < self.beside;
        }
        if self.kind.is_packed() {
            return self.beside != 0 && self.beside != 2;
        }
        self.beside != 0
    }

    // The length is not the one that the head gives.
    fn size_differs(self, len: usize) -> bool
        ensures { result ≡ not (eqb len (64 + 4 * self.words + tallies_size self.count self.beside
            + pick (has_counts self.beside) (pick (is_packed self.kind) 4 (4 * self.count)) 0)) }
    {
        len != 64 + 4 * self.words as usize + self.tallies_size() + self.counts_size()
    }
}

// The head, of any bytes. Stays: no TryFrom: a program prints the head of a refused file too.
#[tactic(auto, unfolding(crate::specs::Head::head_of))]
pub fn head_of(bytes: &[u8]) -> Head
    ensures { result ≡ head_of bytes.now }
{
    let modulus = Modulus::from(little_endian::u32_at(bytes, 12));
    Head {
        kind: Kind::from(little_endian::u32_at(bytes, 8)),
        modulus,
        n: little_endian::u32_at(bytes, 16) as usize,
        m: little_endian::u32_at(bytes, 20) as usize,
        base_log: little_endian::u32_at(bytes, 24),
        levels: little_endian::u32_at(bytes, 28),
        plaintext_modulus: little_endian::u32_at(bytes, 32),
        error_limit: little_endian::u32_at(bytes, 36),
        count: little_endian::u32_at(bytes, 40),
        words: little_endian::u32_at(bytes, 44),
        beside: little_endian::u32_at(bytes, 48),
    }
}

// The signature "SGLN", and version 1.
fn signature_unknown(bytes: &[u8]) -> bool
    ensures { result ≡ signature_fails bytes.now }
{
    little_endian::u64_at(bytes, 0) != 0x1_4e4c_4753
}

// The last twelve bytes of a head are kept for later releases.
fn kept_used(bytes: &[u8]) -> bool
    ensures { result ≡ kept_fails bytes.now }
{
    little_endian::u64_at(bytes, 52) != 0 || little_endian::u32_at(bytes, 60) != 0
}

// Whether bytes are no whole file of this layout. Stays beside `file_refusal`: two callers want the condition alone.
pub fn file_refused(bytes: &[u8]) -> bool
    ensures { result ≡ file_fails bytes.now }
{
    let h = head_of(bytes);
    let r = h.size_differs(bytes.len()) | kept_used(bytes);
    let r = (r | h.beside_refused()) | h.kind.is_unknown();
    (r | signature_unknown(bytes)) | (bytes.len() < 64)
}

// 19 for bytes that are no whole file of this layout.
#[tactic(auto, unfolding(check_order::specs::Answer::number_of))]
pub fn file_refusal(bytes: &[u8]) -> Result<(), Refusal>
    ensures { code_of result ≡ pick (file_fails bytes.now) 19 0 }
{
    if file_refused(bytes) {
        return Err(Refusal::Unreadable);
    }
    Ok(())
}
