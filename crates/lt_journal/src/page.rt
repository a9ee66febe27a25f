ghost use Rattle.std.specs.Prelude.{◌≡◌, ◌+◌, ◌/◌, ◌%◌, ◌<◌, ◌≤◌, ◌^◌, ◌++◌, [], ◌∷◌, codes, length, take, OnOk, IfOk};
ghost use Rattle.std.specs.Fmt.{decimal};
ghost use Rattle.lt_text.specs.Text.{after_space};

use itoa::Buffer;
use std::alloc::{AllocError, Global};
use std::marker::Model;

// So many bytes are added each time that room is made, or as many as are asked for where these are more.
const STEP: usize = 1024;

const ZEROS: [u8; STEP] = [0; STEP];

// The first and the second digit of each number below 100, where the first may be 0.
static TENS: [u8; 100] =
    *b"0000000000111111111122222222223333333333444444444455555555556666666666777777777788888888889999999999";

static ONES: [u8; 100] =
    *b"0123456789012345678901234567890123456789012345678901234567890123456789012345678901234567890123456789";

/// Bytes that are written one behind the other into room that was made before.
#[derive(Debug, Drop)]
pub(crate) struct Page {
    // What is written, and the room behind it.
    bytes: Vec<u8>,
    // How many of the bytes are written.
    len: usize,
}

impl Model for Page {
    ghost use Rattle.std.specs.Prelude.{◌≤◌, ◌-◌, length, take};
    ghost use Rattle.lt_journal.specs.Page.{PageData};

    ghost Value = { PageData };

    ghost view = { λ p. record { text = take p.len p.bytes.items; room = length p.bytes.items - p.len } };

    ghost invariant = { λ p. p.len ≤ length p.bytes.items };
}

impl Page {
    pub fn new(alloc: Global) -> Page
        ensures { result.text ≡ [] }
    {
        Page {
            bytes: Vec::new(alloc),
            len: 0,
        }
    }

    /// A page with nothing on it, whose memory is enough for so many bytes.
    pub fn with_memory(alloc: Global, bytes: usize) -> Result<Page, AllocError>
        ensures { IfOk result (λ page. page.text ≡ []) }
    {
        Ok(Page {
            bytes: Vec::with_capacity(alloc, bytes)?,
            len: 0,
        })
    }

    /// Makes room for so many bytes more, if it isn't there.
    #[inline(always)]
    pub fn make_room(&mut self, count: usize) -> Result<(), AllocError>
        requires { count ≤ 2 ^ 63 }
        ensures text { self.new.text ≡ self.old.text }
        ensures room { OnOk result (count ≤ self.new.room) }
    {
        if count <= self.bytes.len() - self.len {
            return Ok(());
        }
        self.grow(count)
    }

    // Makes room for a step more, or for so many bytes.
    #[cold]
    #[inline(never)]
    #[tactic(auto, using(crate::proofs::Pages::longer))]
    fn grow(&mut self, count: usize) -> Result<(), AllocError>
        requires { count ≤ 2 ^ 63 }
        ensures text { self.new.text ≡ self.old.text }
        ensures room { OnOk result (count ≤ self.new.room) }
    {
        if count > STEP {
            return self.grow_far(count);
        }
        self.bytes.extend_from_slice(&ZEROS)
    }

    // Makes room for so many bytes.
    #[tactic(auto, using(crate::proofs::Pages::resized))]
    fn grow_far(&mut self, count: usize) -> Result<(), AllocError>
        requires { count ≤ 2 ^ 63 }
        ensures text { self.new.text ≡ self.old.text }
        ensures room { OnOk result (count ≤ self.new.room) }
    {
        let end = self.bytes.len() + count;
        self.bytes.resize(end, 0)
    }

    /// Writes these bytes.
    #[inline(always)]
    #[tactic(auto, using(crate::proofs::Pages::put, crate::proofs::Pages::same_length))]
    pub fn put(&mut self, word: &[u8])
        requires { length word.now ≤ self.old.room }
        ensures text { self.new.text ≡ self.old.text ++ word.now }
        ensures room { self.new.room + length word.now ≡ self.old.room }
    {
        let end = self.len + word.len();
        self.bytes[self.len..end].copy_from_slice(word);
        self.len = end;
    }

    /// Writes the first bytes of a block, so many of them.
    #[inline(always)]
    #[tactic(auto, using(crate::proofs::Blocks::cut))]
    pub fn put_front(&mut self, block: &[u8; 32], count: usize)
        requires count { count ≤ 32 }
        requires room { 32 ≤ self.old.room }
        ensures text { self.new.text ≡ self.old.text ++ take count block.now }
        ensures room { self.new.room + count ≡ self.old.room }
    {
        let end = self.len() + count;
        // A copy in a local variable can't overlap what is written.
        let block = *block;
        self.put(&block);
        self.cut(end);
    }

    #[tactic(auto, using(crate::proofs::Pages::length_taken))]
    fn len(&self) -> usize
        ensures length { result ≡ length self.now.text }
        ensures fits { result + self.now.room < 2 ^ 64 }
    {
        self.len
    }

    // Leaves only the first bytes.
    #[tactic(auto, using(crate::proofs::Pages::taken, crate::proofs::Pages::length_taken))]
    fn cut(&mut self, len: usize)
        requires { len ≤ length self.old.text }
        ensures text { self.new.text ≡ take len self.old.text }
        ensures room { self.new.room + len ≡ self.old.room + length self.old.text }
    {
        self.len = len;
    }

    /// Writes the word `move` and the clock of a move's line, and makes room for the rest of it.
    #[inline(always)]
    pub fn put_move(&mut self, clock: u64) -> Result<(), AllocError>
        ensures text { OnOk result (self.new.text ≡ self.old.text ++ codes "move" ++ after_space (decimal clock)) }
        ensures room { OnOk result (48 ≤ self.new.room) }
    {
        if clock >= 10_000 {
            return self.put_long_move(clock);
        }
        self.make_room(57)?;
        self.put(b"move");
        self.put_number(clock);
        Ok(())
    }

    // The same of any clock. It stands apart, so that its buffer doesn't burden the others.
    #[cold]
    #[inline(never)]
    fn put_long_move(&mut self, clock: u64) -> Result<(), AllocError>
        ensures text { OnOk result (self.new.text ≡ self.old.text ++ codes "move" ++ after_space (decimal clock)) }
        ensures room { OnOk result (48 ≤ self.new.room) }
    {
        let mut digits = Buffer::new();
        let digits = digits.format(clock).as_bytes();
        self.make_room(5)?;
        self.put(b"move ");
        self.make_room(digits.len())?;
        self.put(digits);
        self.make_room(48)
    }

    /// Writes a number of one to four digits as a later word of a line.
    #[inline(always)]
    pub fn put_number(&mut self, number: u64)
        requires number { number < 10000 }
        requires room { 5 ≤ self.old.room }
        ensures text { self.new.text ≡ self.old.text ++ after_space (decimal number) }
        ensures room { self.old.room ≤ self.new.room + 5 }
    {
        if number < 100 {
            self.put_short(number);
        } else {
            self.put_middle(number);
        }
    }

    // Writes a number of one or two digits as a later word of a line.
    #[inline(always)]
    #[tactic(auto, using(crate::proofs::Plain::one_digit, crate::proofs::Plain::two_digits))]
    fn put_short(&mut self, number: u64)
        requires number { number < 100 }
        requires room { 3 ≤ self.old.room }
        ensures text { self.new.text ≡ self.old.text ++ after_space (decimal number) }
        ensures room { self.old.room ≤ self.new.room + 3 }
    {
        if number < 10 {
            return self.put(&[b' ', b'0' + number as u8]);
        }
        let [first, last] = two_digits(number);
        self.put(&[b' ', first, last]);
    }

    // Writes a number of three or four digits as a later word of a line.
    #[inline(always)]
    #[tactic(auto, using(crate::proofs::Digits::three_digits_by_two, crate::proofs::Digits::four_digits_by_two))]
    fn put_middle(&mut self, number: u64)
        requires many { 100 ≤ number }
        requires few { number < 10000 }
        requires room { 5 ≤ self.old.room }
        ensures text { self.new.text ≡ self.old.text ++ after_space (decimal number) }
        ensures room { self.old.room ≤ self.new.room + 5 }
    {
        let hundreds = number / 100;
        let [third, last] = two_digits(number % 100);
        if number < 1000 {
            let first = b'0' + hundreds as u8;
            return self.put(&[b' ', first, third, last]);
        }
        let [first, second] = two_digits(hundreds);
        self.put(&[b' ', first, second, third, last]);
    }

    pub fn clear(&mut self)
        ensures { self.new.text ≡ [] }
    {
        self.len = 0;
    }

    pub fn bytes(&self) -> &[u8]
        ensures { result.now ≡ self.now.text }
    {
        &self.bytes[..self.len]
    }

    pub fn into_bytes(self) -> Vec<u8>
        ensures { result.items ≡ self.text }
    {
        let mut bytes = self.bytes;
        bytes.truncate(self.len);
        bytes
    }
}

// The two digits of a number below 100.
#[inline(always)]
#[tactic(auto, using(crate::proofs::Digits::ten_at, crate::proofs::Digits::one_at))]
fn two_digits(number: u64) -> [u8; 2]
    requires { number < 100 }
    ensures { result ≡ (48 + number / 10) ∷ (48 + number % 10) ∷ [] }
{
    let place = number as usize;
    [TENS[place], ONES[place]]
}
