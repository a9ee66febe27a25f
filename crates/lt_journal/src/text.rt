ghost use Rattle.std.specs.Prelude.{◌≡◌, ◌<◌, ◌≤◌, [], ◌∷◌, ◌++◌, codes, length, OnOk, OnErr, IfOk};
ghost use Rattle.std.specs.Fmt.{decimal};
ghost use Rattle.lt_text.specs.Text.{after_space};

use crate::padded::Padded;
use crate::page::Page;
use itoa::Buffer;
use std::alloc::{AllocError, Global};
use std::marker::Model;

/// A text that is being written: lines of words with one space between them.
#[derive(Debug)]
pub struct Text {
    page: Page,
}

impl Model for Text {
    ghost use Rattle.std.specs.Prelude.{List, ℕ};

    ghost Value = { List ℕ };

    ghost view = { λ t. t.page.text };
}

// Written out, so that all places which let a text go call this.
impl Drop for Text {
    fn drop(self) {
        let Text { page } = self;
        drop(page);
    }
}

impl Text {
    pub fn new(alloc: Global) -> Text
        ensures { result ≡ [] }
    {
        Text {
            page: Page::new(alloc),
        }
    }

    /// The text of nothing, with memory for so many bytes.
    pub(crate) fn with_room(alloc: Global, bytes: usize) -> Result<Text, AllocError>
        ensures { IfOk result (λ text. text ≡ []) }
    {
        Ok(Text {
            page: Page::with_memory(alloc, bytes)?,
        })
    }

    /// Writes the first word of a line.
    #[inline(always)]
    pub fn first_word(&mut self, word: &str) -> Result<(), AllocError>
        ensures text { OnOk result (self.new ≡ self.old ++ word.now) }
        ensures unchanged { OnErr result (self.new ≡ self.old) }
    {
        self.first(word.as_bytes())
    }

    /// The same of a word that is given as bytes.
    #[inline(always)]
    pub(crate) fn first(&mut self, word: &[u8]) -> Result<(), AllocError>
        ensures text { OnOk result (self.new ≡ self.old ++ word.now) }
        ensures unchanged { OnErr result (self.new ≡ self.old) }
    {
        self.page.make_room(word.len())?;
        self.page.put(word);
        Ok(())
    }

    /// Writes a later word of a line.
    pub fn word(&mut self, word: &[u8]) -> Result<(), AllocError>
        ensures text { OnOk result (self.new ≡ self.old ++ after_space word.now) }
        ensures unchanged { OnErr result (self.new ≡ self.old) }
    {
        self.page.make_room(word.len() + 1)?;
        self.page.put(b" ");
        self.page.put(word);
        Ok(())
    }

    /// Writes a number as a later word of a line.
    #[inline(always)]
    pub fn number(&mut self, number: u64) -> Result<(), AllocError>
        ensures text { OnOk result (self.new ≡ self.old ++ after_space (decimal number)) }
        ensures unchanged { OnErr result (self.new ≡ self.old) }
    {
        if number >= 10_000 {
            return self.long_number(number);
        }
        self.page.make_room(5)?;
        self.page.put_number(number);
        Ok(())
    }

    // Writes any number. It stands apart, so that its buffer doesn't burden the others.
    #[cold]
    #[inline(never)]
    fn long_number(&mut self, number: u64) -> Result<(), AllocError>
        ensures text { OnOk result (self.new ≡ self.old ++ after_space (decimal number)) }
        ensures unchanged { OnErr result (self.new ≡ self.old) }
    {
        let mut digits = Buffer::new();
        self.word(digits.format(number).as_bytes())
    }

    /// Writes the line of a move that acts for the client of this name.
    #[inline(always)]
    pub(crate) fn act_line(
        &mut self,
        clock: u64,
        node: u8,
        client: &Padded,
    ) -> Result<(), AllocError>
        ensures { OnOk result (self.new ≡ self.old ++ codes "move" ++ after_space (decimal clock)
            ++ after_space (decimal node) ++ after_space (codes "act") ++ client.now ++ 10 ∷ []) }
    {
        self.page.put_move(clock)?;
        self.page.put_number(u64::from(node));
        self.page.put(b" act");
        client.write_line(&mut self.page);
        Ok(())
    }

    /// Writes the line of a move that takes a letter of this node.
    #[inline(always)]
    pub(crate) fn take_line(&mut self, clock: u64, node: u8, from: u8) -> Result<(), AllocError>
        ensures { OnOk result (self.new ≡ self.old ++ codes "move" ++ after_space (decimal clock)
            ++ after_space (decimal node) ++ after_space (codes "take") ++ after_space (decimal from) ++ 10 ∷ []) }
    {
        self.page.put_move(clock)?;
        self.page.put_number(u64::from(node));
        // A copy in a local variable can't overlap what is written.
        let take = *b" take";
        self.page.put(&take);
        self.page.put_number(u64::from(from));
        self.page.put(b"\n");
        Ok(())
    }

    /// Writes a line of a first word and of words that stand in two blocks.
    #[inline(always)]
    pub(crate) fn lock_line(
        &mut self,
        first: &[u8],
        client: &Padded,
        lock: &Padded,
    ) -> Result<(), AllocError>
        requires { length first.now ≤ 8 }
        ensures { OnOk result (self.new ≡ self.old ++ first.now ++ client.now ++ lock.now ++ 10 ∷ []) }
    {
        self.page.make_room(72)?;
        self.page.put(first);
        client.write(&mut self.page);
        lock.write_line(&mut self.page);
        Ok(())
    }

    /// Writes the line of a token of the set of this name, which goes to a node.
    #[inline(always)]
    pub(crate) fn token_line(&mut self, set: &Padded, to: u8, epoch: u64) -> Result<(), AllocError>
        requires { epoch < 10000 }
        ensures { OnOk result (self.new ≡ self.old ++ codes "token" ++ set.now
            ++ after_space (decimal to) ++ after_space (decimal epoch) ++ 10 ∷ []) }
    {
        self.page.make_room(48)?;
        // A copy in a local variable can't overlap what is written.
        let token = *b"token";
        self.page.put(&token);
        set.write(&mut self.page);
        self.page.put_number(u64::from(to));
        self.page.put_number(epoch);
        self.page.put(b"\n");
        Ok(())
    }

    /// Writes words that stand in a block.
    #[inline(always)]
    pub(crate) fn padded(&mut self, words: &Padded) -> Result<(), AllocError>
        ensures { OnOk result (self.new ≡ self.old ++ words.now) }
    {
        self.page.make_room(32)?;
        words.write(&mut self.page);
        Ok(())
    }

    #[inline(always)]
    pub fn end_line(&mut self) -> Result<(), AllocError>
        ensures text { OnOk result (self.new ≡ self.old ++ 10 ∷ []) }
        ensures unchanged { OnErr result (self.new ≡ self.old) }
    {
        self.page.make_room(1)?;
        self.page.put(b"\n");
        Ok(())
    }

    /// The text of nothing, in the memory that this one has.
    pub fn clear(&mut self)
        ensures { self.new ≡ [] }
    {
        self.page.clear();
    }

    pub fn bytes(&self) -> &[u8]
        ensures { result.now ≡ self.now }
    {
        self.page.bytes()
    }

    pub fn into_bytes(self) -> Vec<u8>
        ensures { result.items ≡ self }
    {
        let Text { page } = self;
        page.into_bytes()
    }
}
