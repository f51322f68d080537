//! A code written byte by byte.
ghost use Rattle.std.specs.Prelude.{◌≡◌, ◌+◌, ◌<◌, ◌≤◌, [], ◌∷◌, ◌++◌, ℕ, List, length, take};
ghost use Rattle.rzcobs_core.specs.Canon.{canon, bound_of};
ghost use Rattle.rzcobs_core.specs.Encodes.{Gathers};

/// The most bytes that the code of `n` bytes has: `n` and a seventh of it, rounded up.
///
/// `n` is at most 1,000,000.
pub fn bound(n: usize) -> usize
    requires { n ≤ 1000000 }
    ensures { result ≡ bound_of n }
{
    n + n.div_ceil(7)
}

/// Writes the code of the bytes that are put to it, one after another (rzCOBS, its greedy encoder).
///
/// It gathers bytes. Seven of which one is zero are closed as a block of the first form. Seven
/// without a zero go on until a zero comes, which closes the second form, or until they are 134,
/// the third form. No call takes memory.
pub struct Encoder<'a> {
    out: &'a mut [u8],
    stored: usize,
    count: u8,
    zeros: u8,
}

impl<'a> Encoder<'a> {
    ghost use Rattle.rzcobs_core.specs.Encoder.{Holds, GoesOn, EndsWith, WritesTo, SameBuffer, buffer_of, buffer_left};

    /// An encoder to which nothing was put. It will write to the front of the buffer.
    pub fn new(out: &'a mut [u8]) -> Self
        ensures same_buffer { WritesTo result out.entry }
        ensures nothing { Holds result [] }
        ensures same { buffer_of result ≡ out.old }
    {
        Encoder {
            out,
            stored: 0,
            count: 0,
            zeros: 0,
        }
    }

    /// Puts one byte more.
    ///
    /// The buffer has at least as many bytes as `bound` gives for the bytes that were put with
    /// this one.
    #[inline]
    pub fn put(&mut self, byte: u8)
        requires { (message : List ℕ) × Holds self.old message
            × (bound_of (length message + 1) ≤ length (buffer_of self.old)) }
        ensures same_buffer { SameBuffer self.old self.new }
        ensures one_more { (message : List ℕ) → Holds self.old message
            → Holds self.new (message ++ byte ∷ []) }
        ensures length { length (buffer_of self.new) ≡ length (buffer_of self.old) }
        ensures behind { GoesOn self.old self.new }
    {
        if byte == 0 && self.count >= 7 {
            self.close_zero(byte);
        } else {
            self.gather(byte);
            self.close();
        }
    }

    // Closes a block of the second form.
    #[inline]
    fn close_zero(&mut self, byte: u8)
        requires zero { byte ≡ 0 }
        requires long { 7 ≤ self.old.count }
        requires encodes { (message : List ℕ) × Holds self.old message }
        requires room { self.old.stored < length self.old.out.now }
        ensures same_buffer { SameBuffer self.old self.new }
        ensures one_more { (message : List ℕ) → Holds self.old message
            → Holds self.new (message ++ byte ∷ []) }
        ensures length { length self.new.out.now ≡ length self.old.out.now }
        ensures behind { GoesOn self.old self.new }
    {
        self.out[self.stored] = self.count + 121;
        self.stored += 1;
        self.count = 0;
        self.zeros = 0;
    }

    // Adds a byte to those that are gathered.
    #[inline]
    fn gather(&mut self, byte: u8)
        requires short { byte ≡ 0 → self.old.count ≤ 6 }
        requires encodes { (message : List ℕ) × Holds self.old message }
        requires room { self.old.stored < length self.old.out.now }
        ensures same_buffer { SameBuffer self.old self.new }
        ensures one_more { (message : List ℕ) → Holds self.old message
            → Gathers self.new.out.now self.new.stored self.new.count self.new.zeros
            (message ++ byte ∷ []) }
        ensures length { length self.new.out.now ≡ length self.old.out.now }
        ensures stored { self.new.stored ≤ self.old.stored + 1 }
        ensures count { self.new.count ≡ self.old.count + 1 }
        ensures behind { GoesOn self.old self.new }
    {
        if byte == 0 {
            self.zeros += 1 << self.count;
        } else {
            self.out[self.stored] = byte;
            self.stored += 1;
        }
        self.count += 1;
    }

    // Adds bytes that are no more than a block of the first form has, where none is gathered.
    #[inline]
    fn gather_all(&mut self, bytes: &[u8])
        requires none { self.old.count ≡ 0 }
        requires few { length bytes.now ≤ 7 }
        requires room { (message : List ℕ) × Holds self.old message
            × (bound_of (length message + length bytes.now) ≤ length self.old.out.now) }
        ensures same_buffer { SameBuffer self.old self.new }
        ensures more { (message : List ℕ) → Holds self.old message
            → Gathers self.new.out.now self.new.stored self.new.count self.new.zeros
            (message ++ bytes.now) }
        ensures count { self.new.count ≡ length bytes.now }
        ensures length { length self.new.out.now ≡ length self.old.out.now }
        ensures behind { GoesOn self.old self.new }
    {
        for byte in bytes {
            self.gather(*byte);
        }
    }

    // Puts the next bytes, and answers how many: where none is gathered those of a block of the
    // first form, or all where there are fewer, else one.
    #[inline]
    pub(crate) fn put_some(&mut self, bytes: &[u8]) -> usize
        requires some { 0 < length bytes.now }
        requires room { (message : List ℕ) × Holds self.old message
            × (bound_of (length message + length bytes.now) ≤ length (buffer_of self.old)) }
        ensures same_buffer { SameBuffer self.old self.new }
        ensures some { 0 < result }
        ensures within { result ≤ length bytes.now }
        ensures more { (message : List ℕ) → Holds self.old message
            → Holds self.new (message ++ take result bytes.now) }
        ensures length { length (buffer_of self.new) ≡ length (buffer_of self.old) }
        ensures behind { GoesOn self.old self.new }
    {
        if self.count > 0 {
            self.put(bytes[0]);
            return 1;
        }
        if bytes.len() < 7 {
            self.gather_all(bytes);
            return bytes.len();
        }
        self.gather_all(&bytes[..7]);
        self.close();
        7
    }

    // Closes a block of the first or the third form, where the gathered bytes are one.
    #[inline]
    fn close(&mut self)
        requires gathers { (message : List ℕ)
            × Gathers self.old.out.now self.old.stored self.old.count self.old.zeros message }
        requires room { self.old.stored < length self.old.out.now }
        ensures same_buffer { SameBuffer self.old self.new }
        ensures same { (message : List ℕ)
            → Gathers self.old.out.now self.old.stored self.old.count self.old.zeros message
            → Holds self.new message }
        ensures length { length self.new.out.now ≡ length self.old.out.now }
        ensures behind { GoesOn self.old self.new }
    {
        if self.count < 7 {
            return;
        }
        if self.count == 7 && self.zeros != 0 {
            self.out[self.stored] = self.zeros;
            self.stored += 1;
            self.count = 0;
            self.zeros = 0;
            return;
        }
        if self.count == 134 {
            self.out[self.stored] = 255;
            self.stored += 1;
            self.count = 0;
            self.zeros = 0;
        }
    }

    /// Closes what is still gathered, and answers how many bytes the code has, which stands at
    /// the buffer's front.
    ///
    /// With 1 to 6 bytes gathered the missing ones count as zeros, and with 7 to 133 one zero is
    /// added. What lies behind the code is left as it was.
    pub fn end(self) -> usize
        requires { (message : List ℕ) × Holds self message
            × (bound_of (length message) ≤ length (buffer_of self)) }
        ensures code { (message : List ℕ) → Holds self.entry message
            → take result (buffer_left self.exit) ≡ canon message }
        ensures within { result ≤ length (buffer_left self.exit) }
        ensures bound { (message : List ℕ) → Holds self.entry message
            → result ≤ bound_of (length message) }
        ensures behind { EndsWith self.entry result (buffer_left self.exit) }
    {
        let Encoder {
            out,
            stored,
            count,
            zeros,
        } = self;
        if count == 0 {
            return stored;
        }
        if count < 7 {
            out[stored] = zeros + (128 - (1 << count));
            return stored + 1;
        }
        out[stored] = count + 121;
        stored + 1
    }
}
